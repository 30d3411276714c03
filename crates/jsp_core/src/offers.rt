//! The rows that are on offer to the requests that wait, and the requests that are stirred.
ghost use Rattle.std.specs.Prelude.{◌≡◌, ◌≤◌, ◌<◌, ℕ, true, None, Some, [], filter, option_map, option_copied};
ghost use Rattle.jsp_model.specs.Lookup.{contains as has};
ghost use Rattle.jsp_core.specs.Offering.{is_offered};

use jsp_table::Test;
use std::alloc::Global;
use std::marker::Model;

/// Rows by their numbers, or any row. Contracts see a list of numbers, or `None` for any.
///
/// A row comes on offer when it is written or let go, and is so until no waiting request may be
/// given it. So what waits is only looked at for the rows on offer. Nothing here fails: where
/// memory is refused, any row is on offer.
///
/// Requests stand in such a list too: one that waits for a conflict to end is stirred when a row
/// goes, or is let go, for which it asks, and is so until it is seen that another holds it up.
#[derive(Drop)]
pub struct Offers {
    is_any: bool,
    numbers: Vec<u64>,
}

impl Model for Offers {
    ghost use Rattle.std.specs.Prelude.{List, ℕ, Option, Some, None, if◌then◌else◌};

    ghost Value = { Option (List ℕ) };

    ghost view = { λ o. if o.is_any then None else Some o.numbers.items };
}

impl Offers {
    /// Any row.
    pub fn any(alloc: Global) -> Self
        ensures { result ≡ None }
    {
        Offers {
            is_any: true,
            numbers: Vec::new(alloc),
        }
    }

    /// The numbers, where not any row is on offer.
    pub fn numbers(&self) -> Option<&[u64]>
        ensures { option_copied result ≡ self.now }
    {
        if self.is_any {
            None
        } else {
            Some(self.numbers.as_slice())
        }
    }

    /// Offers any row.
    pub fn open(&mut self)
        ensures { self.new ≡ None }
    {
        self.is_any = true;
        self.numbers.clear();
    }

    /// Offers none.
    pub fn close(&mut self)
        ensures { self.new ≡ Some [] }
    {
        self.is_any = false;
        self.numbers.clear();
    }

    /// Offers a row.
    pub fn add(&mut self, number: u64)
        ensures added { is_offered self.new number ≡ true }
        ensures keeps { (n : ℕ) → is_offered self.old n ≡ true → is_offered self.new n ≡ true }
    {
        if let Err(_) = self.numbers.push(number) {
            self.is_any = true;
        }
    }

    /// Offers rows.
    pub fn add_all(&mut self, numbers: &[u64])
        ensures added { (n : ℕ) → has numbers.now n ≡ true → is_offered self.new n ≡ true }
        ensures keeps { (n : ℕ) → is_offered self.old n ≡ true → is_offered self.new n ≡ true }
    {
        'numbers: for number in numbers {
            self.add(*number);
        }
    }

    /// Offers the rows whose numbers are from the first up to before the second.
    pub fn add_between(&mut self, from: u64, to: u64)
        ensures added { (n : ℕ) → from ≤ n → n < to → is_offered self.new n ≡ true }
        ensures keeps { (n : ℕ) → is_offered self.old n ≡ true → is_offered self.new n ≡ true }
    {
        'numbers: for number in from..to {
            self.add(number);
        }
    }

    /// Keeps of the numbers those that pass a test.
    pub fn keep<P: Test<u64>>(&mut self, test: &P)
        ensures { self.new ≡ option_map (filter (P.is_passed test.now)) self.old }
    {
        keep_passing(&mut self.numbers, test);
    }
}

fn keep_passing<P: Test<u64>>(numbers: &mut Vec<u64>, test: &P)
    ensures { numbers.new.items ≡ filter (P.is_passed test.now) numbers.old.items }
{
    numbers.retain(|number| test.passes(number));
}
