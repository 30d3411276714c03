//! What a person is told of a refusal.
ghost use Rattle.std.specs.Prelude.{◌≡◌, ◌<◌, ◌⊎◌, IfSome, IfNone};
ghost use Rattle.jsp_reply.specs.Numbers.{number_of};

use jsp_reply::Refusal;

/// The refusal of a number, where it is one of the protocol's.
pub(crate) fn refusal_of(number: u64) -> Option<Refusal>
    ensures some { IfSome result (λ refusal. number_of refusal ≡ number) }
    ensures none { IfNone result ((number ≡ 0) ⊎ (22 < number)) }
{
    match number {
        1 => Some(Refusal::BadJson),
        2 => Some(Refusal::BadRequest),
        3 => Some(Refusal::IdInUse),
        4 => Some(Refusal::TooManyWaiting),
        5 => Some(Refusal::UnknownSpace),
        6 => Some(Refusal::BadClass),
        7 => Some(Refusal::Differs),
        8 => Some(Refusal::UnknownClass),
        9 => Some(Refusal::BadEntry),
        10 => Some(Refusal::BadLease),
        11 => Some(Refusal::BadTimeout),
        12 => Some(Refusal::UnknownLease),
        13 => Some(Refusal::UnknownTransaction),
        14 => Some(Refusal::NotActive),
        15 => Some(Refusal::Aborted),
        16 => Some(Refusal::LeftActive),
        17 => Some(Refusal::TooMany),
        18 => Some(Refusal::CrashCount),
        19 => Some(Refusal::InDoubt),
        20 => Some(Refusal::SpaceFull),
        21 => Some(Refusal::TooLong),
        22 => Some(Refusal::UsedUp),
        _ => None,
    }
}

/// What to do about a refusal.
pub(crate) fn advice(refusal: Refusal) -> &'static str {
    match refusal {
        Refusal::BadJson => "write the request as JSON in UTF-8",
        Refusal::BadRequest =>
            "see its form by `help`, and the limits of its members in the protocol",
        Refusal::IdInUse => "wait for the answer to the request that has this id",
        Refusal::TooManyWaiting => "wait until one of the 64 waiting requests is answered",
        Refusal::UnknownSpace => "`spaces` names the spaces that there are",
        Refusal::BadClass => "mend the class's name, its fields' names or kinds, or its depth",
        Refusal::Differs => "declare it as it is declared already, or under another name",
        Refusal::UnknownClass => "declare the class first",
        Refusal::BadEntry =>
            "give it just the fields of its class, each of its kind, and at most 8192 bytes of text",
        Refusal::BadLease => "ask for 0 milliseconds or more, or for -1",
        Refusal::BadTimeout => "wait for 0 milliseconds or more",
        Refusal::UnknownLease =>
            "it has ended, or was never there: look up the number that was answered",
        Refusal::UnknownTransaction => "it has ended, or was never there: begin another",
        Refusal::NotActive => "its commit was asked: wait for the answer to that",
        Refusal::Aborted => "nothing of it was done: do it again in another transaction",
        Refusal::LeftActive => "its transaction has ended meanwhile: ask again in another",
        Refusal::TooMany => "cancel or end some of those that there are",
        Refusal::CrashCount =>
            "the space was reset meanwhile: abort the transaction, and begin another",
        Refusal::InDoubt => "wait for the commit that the space is part of",
        Refusal::SpaceFull => "take some entries, or wait until their leases end",
        Refusal::TooLong => "send less at once; the session is closed",
        Refusal::UsedUp => "start the server anew",
    }
}
