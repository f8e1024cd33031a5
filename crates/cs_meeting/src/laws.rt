//! The laws of meetings, each the contract of a function that does nothing.

ghost use Rattle.cs_meeting.specs.Laws.{OneMeeting, OneTurn, SomeTurn, TurnIsSound};

/// But for want of memory and failed devices the same turn is next in the same world, and comes to the same.
pub fn one_turn()
    ensures { OneTurn }
{
    cs_world::laws::one_step();
    cs_world::laws::steps_are_sound();
}

/// But for want of memory and failed devices, meetings in the same world by the same wish have one end.
pub fn one_meeting()
    ensures { OneMeeting }
{
    one_turn();
    turn_is_sound();
}

/// In a sound world the events of a turn have outcomes, whatever is asked and wished.
pub fn some_turn()
    ensures { SomeTurn }
{
    cs_world::laws::ask_has_step();
    cs_world::laws::resend_has_step();
    cs_world::laws::push_has_step();
    cs_world::laws::deliver_has_step();
    cs_world::laws::steps_are_sound();
}

/// A turn keeps its world sound. So it has the headline (`cs_world::laws::sound_has_headline`).
pub fn turn_is_sound()
    ensures { TurnIsSound }
{
    cs_world::laws::steps_are_sound();
}
