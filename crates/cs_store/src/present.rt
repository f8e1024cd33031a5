//! The catalog along a log, as each store's `check` reads it from the front.

ghost use Rattle.std.specs.Prelude.{◌≡◌};

use crate::log::{Body, BodyFault, is_plainly_stored, read_body};
use cs_value::{Catalog, Memory};
use cs_widening::widen;
use std::alloc::{AllocError, Global};
use std::marker::Model;

/// The tables that the bodies read so far leave: those that the log opened with, until one of the bodies widens a table.
#[derive(Drop)]
pub struct Present<'a> {
    opening: &'a Catalog,
    /// The catalog of the last body that widened a table.
    wider: Option<Catalog>,
}

impl<'a> Model for Present<'a> {
    ghost use Rattle.std.specs.Prelude.{List};
    ghost use Rattle.std.specs.Option.{unwrap_or};
    ghost use Rattle.cs_value.specs.declared.catalog.TableDef.{TableDef};

    ghost Value = { List TableDef };

    ghost view = { λ present. unwrap_or present.wider present.opening.now };
}

impl<'a> Present<'a> {
    ghost use Rattle.std.specs.Prelude.{◌≡◌, [], ◌∷◌, IfOk, OnErr, OnOk};
    ghost use Rattle.cs_store.specs.log.Entry.{MayWiden};
    ghost use Rattle.cs_store.specs.log.Log.{catalog_after};
    ghost use Rattle.cs_store.specs.Whole.{AreJudged};

    /// The tables that a log opens with.
    pub fn new(opening: &'a Catalog) -> Present<'a>
        ensures { result ≡ opening.now }
    {
        Present {
            opening,
            wider: None,
        }
    }

    /// The catalog behind the bodies that were judged.
    pub fn catalog(&self) -> &Catalog
        ensures { result.now ≡ self.now }
    {
        match &self.wider {
            Some(wider) => wider,
            None => self.opening,
        }
    }

    /// The catalog behind one more body. An `Err` changes nothing.
    fn follow(&mut self, alloc: Global, body: &Body) -> Result<(), Memory>
        requires { MayWiden self.old body.now }
        ensures ok { OnOk result (self.new ≡ catalog_after self.old body.now) }
        ensures err { OnErr result (self.new ≡ self.old) }
    {
        let Body::Widen { table, width } = body else {
            return Ok(());
        };
        match widen(alloc, self.catalog(), table.as_str(), *width as usize)? {
            Some(wide) => self.wider = Some(wide),
            None => unreachable!(),
        }
        Ok(())
    }

    /// Whether the bytes are those that the body of the next entry is stored as. If so, the catalog is the one behind it. No
    /// catalog is made but where the body widens a table.
    ///
    /// # Errors
    ///
    /// Memory was refused, and the catalog is as it was.
    pub fn judge_body(&mut self, alloc: Global, bytes: &[u8]) -> Result<bool, Memory>
        ensures judged { IfOk result (λ good. AreJudged self.old (bytes.now ∷ []) good self.new) }
        ensures same { OnErr result (self.new ≡ self.old) }
    {
        if is_plainly_stored(alloc, self.catalog(), bytes)? {
            return Ok(true);
        }
        let body = match read_body(alloc, self.catalog(), bytes) {
            Ok(body) => body,
            Err(BodyFault::NoBody) => return Ok(false),
            Err(BodyFault::Memory) => return Err(AllocError),
        };
        self.follow(alloc, &body)?;
        Ok(true)
    }
}
