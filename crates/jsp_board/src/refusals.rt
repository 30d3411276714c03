//! The names of refusals.

/// Their names, each at its number; none has the number 0.
const NAMES: [&str; 23] = [
    "",
    "BadJson",
    "BadRequest",
    "IdInUse",
    "TooManyWaiting",
    "UnknownSpace",
    "BadClass",
    "Differs",
    "UnknownClass",
    "BadEntry",
    "BadLease",
    "BadTimeout",
    "UnknownLease",
    "UnknownTransaction",
    "NotActive",
    "Aborted",
    "LeftActive",
    "TooMany",
    "CrashCount",
    "InDoubt",
    "SpaceFull",
    "TooLong",
    "UsedUp",
];

/// The name of the refusal of a number, which is empty where none has it.
pub(crate) fn refusal_name(number: usize) -> &'static str {
    match NAMES.get(number) {
        Some(name) => *name,
        None => "",
    }
}
