//! The state of the spaces as a program works on it.
//!
//! The definitions speak of jsp_model's `State`, whose lists are plain. `Core` has the same fields,
//! but each list that is searched is kept in a type of its own, which says what it finds and
//! changes by the plain list. Contracts see a `Core` as that `State`, so whatever is defined of
//! states holds of it word for word. `LiveImage` is a `Core` within the limits of the profile, as
//! an `Image` is a `State` within them. A state that is only kept is an `Image`, as the one that a
//! replay begins with.
#![tactic(auto)]

mod live;
mod offers;
mod sessions;
mod state;

pub use jsp_store::Keeping;
pub use live::LiveImage;
pub use offers::Offers;
pub use sessions::Sessions;
pub use state::Core;
