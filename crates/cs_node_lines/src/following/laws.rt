//! The laws of requests that are answered as they come, each the contract of a function that does nothing.

ghost use Rattle.cs_node_lines.specs.following.Laws.{SomeListOfRequests, OneFollowRun, OneFollowStep, OneListOfRequests, SeenIsHeard};

use crate::following::noting::Unwished;
use crate::working::laws::one_line_step;

/// Lines make one list of requests, and there is one.
pub fn one_list_of_requests()
    ensures one { OneListOfRequests }
    ensures made { SomeListOfRequests }
{}

/// But for want of memory and a device that fails a request has one text, and leaves one replica.
pub fn one_follow_step()
    ensures { OneFollowStep }
{
    one_line_step();
    cs_replica::laws::one_edited_all();
    cs_pending::laws::one_view();
    cs_pending::outgoing::laws::one_pending();
    cs_pending::rows::laws::one_table_of_rows();
    cs_exchange::taking::laws::one_contents();
    cs_replica::laws::one_answered::<Unwished>();
    cs_wire::laws::one_told_answer();
}

/// So do requests one behind another.
pub fn one_follow_run()
    ensures { OneFollowRun }
{
    one_follow_step();
    cs_widening::laws::widened_are_tables();
}

/// What is heard of an answer with the clash that is seen is what the wishes make of it.
pub fn seen_is_heard()
    ensures { SeenIsHeard }
{}
