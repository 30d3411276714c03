//! Items are placed and given room where there is memory. Their ends were worked out by hand.
use jsp_lease::{Item, Leases, Rank};
use std::test::Fail;

#[test]
fn items_are_placed(rt: HostRuntime) -> Result<(), Fail> {
    let mut leases = Leases::new(rt.alloc());
    leases.place(Item {
        end: 1500,
        rank: Rank::Entry,
        number: 4,
    })?;
    let blocked = Item {
        end: 700,
        rank: Rank::Blocked,
        number: 9,
    };
    leases.place(blocked)?;
    leases.reserve(1000)?;
    assert_eq!(rt; leases.due(1500), Some(blocked));
    assert_eq!(rt; leases.cancel(9), Ok(blocked));
    assert_eq!(rt; leases.due(1500).map(|item| item.number), Some(4));
    assert_eq!(rt; leases.due(1499), None);
    Ok(())
}

// More items than the first table has places, the last due first.
#[test]
fn a_full_table_gives_way_to_another(rt: HostRuntime) -> Result<(), Fail> {
    let mut leases = Leases::new(rt.alloc());
    for number in 1..=100u64 {
        if leases.last() < number {
            leases.place(Item {
                end: 107 - number,
                rank: Rank::Entry,
                number,
            })?;
        }
    }
    for number in (1..=100u64).rev() {
        let due = leases.due(1000).ok_or("nothing is due")?;
        assert_eq!(rt; due.number, number);
        assert_eq!(rt; leases.cancel(number), Ok(due));
    }
    Ok(())
}
