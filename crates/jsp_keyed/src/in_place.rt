//! Things that change in place.
ghost use Rattle.std.specs.Prelude.{◌≡◌, ◌==◌, if◌then◌else◌, map, OnOk, OnErr};
ghost use Rattle.jsp_keyed.specs.Changing.{HasSameKeys, HasOnlyNewEnd};

use crate::{Keyed, Keying, NoMemory};
use jsp_table::{Change, Numbering, TryChange};

impl<T, K: Numbering<T> + Keying<T>> Keyed<T, K> {
    /// Changes the thing of this number, which keeps its number, its keys and its end. Takes no
    /// memory.
    pub fn change<C: Change<T>>(&mut self, number: u64, change: &C)
        requires { (x : T) → HasSameKeys K.number_of K.keys_of K.end_of x (C.changed change.now x) }
        ensures { self.new ≡ map (λ x. if K.number_of x == number then C.changed change.now x else x) self.old }
    {
        self.table.change(number, change);
    }

    /// Changes the thing of this number, which keeps its number, its keys and its end, whole or not
    /// at all.
    pub fn try_change<C: TryChange<T>>(&mut self, number: u64, change: &C) -> Result<(), NoMemory>
        requires { (x : T) → HasSameKeys K.number_of K.keys_of K.end_of x (C.changed change.now x) }
        ensures ok { OnOk result (self.new ≡ map (λ x. if K.number_of x == number then C.changed change.now x else x) self.old) }
        ensures err { OnErr result (self.new ≡ self.old) }
    {
        self.table.try_change(number, change)?;
        Ok(())
    }

    /// The thing of this number ends then: the change gives it that end, and keeps its number and
    /// its keys. Takes no memory.
    pub fn set_end<C: Change<T>>(&mut self, number: u64, end: u64, change: &C)
        requires { (x : T) → HasOnlyNewEnd K.number_of K.keys_of K.end_of end x (C.changed change.now x) }
        ensures { self.new ≡ map (λ x. if K.number_of x == number then C.changed change.now x else x) self.old }
    {
        self.table.change(number, change);
        self.ends.set_end(number, end);
    }
}
