//! The laws of lines, each the contract of a function that does nothing.

ghost use Rattle.cs_node_lines.specs.working.Laws.{OneLineRun, OneLineStep};

/// But for want of memory and a device that fails a line has one text, and leaves one replica.
pub fn one_line_step()
    ensures { OneLineStep }
{
    cs_replica::laws::one_edited();
    cs_replica::laws::one_pushed();
    cs_replica::laws::one_resent();
    cs_replica::laws::one_heard();
    cs_pending::rows::laws::one_table_of_rows();
    cs_wire::laws::one_told_answer();
}

/// So do lines one behind another.
pub fn one_line_run()
    ensures { OneLineRun }
{
    one_line_step();
    cs_widening::laws::widened_are_tables();
}
