//! The laws of requests and answers, each the contract of a function that does nothing.

ghost use Rattle.cs_wire.specs.Laws.{AsksSomething, FrontOfAnswer, FrontOfRequest, OneRequest, OneToldAnswer, TellsSomething, ToldAreRead};

/// Bytes spell one request, or have one fault and spell none.
pub fn one_request()
    ensures { OneRequest }
{}

/// Bytes ask a push, a pull, a catch or a wider table, or have a fault.
pub fn asks_something()
    ensures { AsksSomething }
{}

/// A front of a request that isn't the whole of it is Truncated.
pub fn front_of_request()
    ensures { FrontOfRequest }
{
    one_request();
    asks_something();
}

/// Bytes spell one answer, or have one fault and spell none.
pub fn one_told_answer()
    ensures { OneToldAnswer }
{}

/// Bytes tell an answer, or have a fault.
pub fn tells_something()
    ensures { TellsSomething }
{}

/// A front of an answer that isn't the whole of it is Truncated.
pub fn front_of_answer()
    ensures { FrontOfAnswer }
{
    one_told_answer();
    tells_something();
}

/// Entries of a log that fit a message are told, and read, as they are.
pub fn told_are_read()
    ensures { ToldAreRead }
{}
