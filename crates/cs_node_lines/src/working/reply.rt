//! What is printed of one line.

ghost use Rattle.std.specs.Prelude.{◌≡◌, OnErr, OnOk};
ghost use Rattle.std.specs.Io.KnownBytes.{Appends};
ghost use Rattle.cs_lines.specs.Writing.{AppendsFront};
ghost use Rattle.cs_node_lines.specs.working.Replies.{reply_text};
ghost use Rattle.cs_node_lines.specs.working.Texts.{refused_text};

use cs_lines::{LineOutput, write_hex_line};
use std::io;

/// What is printed of one line. To print it takes no memory.
#[derive(Drop)]
pub enum Reply {
    /// `ok`
    Done,
    /// `unread`
    Unread,
    /// `refused NAME`
    Refused(&'static str),
    /// A request, in lower case hex.
    Hex(Vec<u8>),
    /// A text, with its line feeds.
    Text(String),
}

/// `refused NAME` as a line. It isn't sent yet.
fn put_refused<W: LineOutput>(writer: &mut W, name: &str) -> io::Result<()>
    ensures written { OnOk result (Appends (W.contents writer.old) (W.contents writer.new) (refused_text name.now)) }
    ensures front { OnErr result (AppendsFront (W.contents writer.old) (W.contents writer.new) (refused_text name.now)) }
    ensures failed { OnErr result (W.failed writer.new) }
{
    writer.put(b"refused ")?;
    writer.put(name.as_bytes())?;
    writer.put(b"\n")
}

/// A text and no more. It isn't sent yet.
pub(crate) fn put_text<W: LineOutput>(writer: &mut W, reply: &Reply) -> io::Result<()>
    ensures written { OnOk result (Appends (W.contents writer.old) (W.contents writer.new) (reply_text reply.now)) }
    ensures front { OnErr result (AppendsFront (W.contents writer.old) (W.contents writer.new) (reply_text reply.now)) }
    ensures failed { OnErr result (W.failed writer.new) }
{
    match reply {
        Reply::Done => writer.put(b"ok\n"),
        Reply::Unread => writer.put(b"unread\n"),
        Reply::Refused(name) => put_refused(writer, name),
        Reply::Hex(bytes) => write_hex_line(writer, bytes),
        Reply::Text(text) => writer.put(text.as_bytes()),
    }
}

/// Writes what is printed of a line, and sends it. Where a write or flush fails, the writer holds a front of it.
pub fn write_reply<W: LineOutput>(writer: &mut W, reply: &Reply) -> io::Result<()>
    ensures written { OnOk result (Appends (W.contents writer.old) (W.contents writer.new) (reply_text reply.now)) }
    ensures sent { OnOk result (W.sent writer.new) }
    ensures front { OnErr result (AppendsFront (W.contents writer.old) (W.contents writer.new) (reply_text reply.now)) }
    ensures failed { OnErr result (W.failed writer.new) }
{
    put_text(writer, reply)?;
    writer.send()
}
