// A small table, and every refusal of the loader at its edge.
use super::*;
use item_sets::ItemSet;
use records::Table;
use refusals::Layer;
use spaces::Space;
use std::alloc::{AllocError, Global};
use std::process::Abort;
use std::test::Fail;

const TWO_ORDERS: [u8; 14] = [1, 2, 0, 2, 0, 1, b'O', 3, 2, 0, 6, 0, 0, 0];

fn check_states_of_two_orders(rt: &impl Abort, table: &OrderTable) {
    let states = [0, 2, 4, 5, 6, 7];
    for number in 0..16 {
        assert_eq!(rt;
            table.is_state(ItemSet { number }),
            states.contains(&number)
        );
    }
}

// The record is refused for this reason, and the table is left as it was.
// What is told is held against the rules' numbers, and against no `Refusal`, whose numbers are then tried too. The tests of the
// other sort of table have the like: one for both would need a crate of its own.
fn check_refused(rt: &impl Abort, bytes: &[u8], number: u8, place: u64) -> Result<(), Fail> {
    let mut table = OrderTable::fresh();
    table.load(&TWO_ORDERS)?;
    let Err(refusal) = table.load(bytes) else {
        return Err(Fail::new("the record is loaded"));
    };
    assert_eq!(rt; refusal.number(), number);
    assert_eq!(rt; refusal.layer(), Layer::Record);
    assert_eq!(rt; refusal.place(), place);
    check_states_of_two_orders(rt, &table);
    Ok(())
}

// The record of one row, the `n` items in rising order.
fn rising(heap: Global, n: u8) -> Result<Vec<u8>, AllocError> {
    let mut bytes = Vec::new(heap);
    bytes.extend(0..n)?;
    bytes.extend_from_slice(&[b'O', n, 1, 0, n, 0, 0, 0])?;
    Ok(bytes)
}

#[test]
fn two_orders_have_six_states(rt: HostRuntime) -> Result<(), Fail> {
    let mut table = OrderTable::fresh();
    table.load(&TWO_ORDERS)?;
    check_states_of_two_orders(&rt, &table);
    Ok(())
}

#[test]
fn the_trailer_is_checked_first(rt: HostRuntime) -> Result<(), Fail> {
    check_refused(&rt, &[0, 0, 0, 0, 0, 0, 0], 1, 7)?;
    check_refused(&rt, &[9, b'C', 0, 0, 0, 0, 0, 0, 0], 2, 1)?;
    check_refused(&rt, &[9, b'O', 0, 0, 0, 0, 0, 0, 0], 3, 2)?;
    check_refused(&rt, &[9, b'O', 1, 17, 0, 0, 0, 0, 0], 4, 3)?;
    check_refused(&rt, &[9, b'O', 1, 1, 0, 2, 0, 0, 0], 5, 5)
}

#[test]
fn the_first_wrong_row_is_told(rt: HostRuntime) -> Result<(), Fail> {
    check_refused(&rt, &[0, 1, 2, 0, 0, 0, b'O', 2, 3, 0, 6, 0, 0, 0], 6, 2)?;
    check_refused(&rt, &[1, 2, 0, 2, 1, 2, b'O', 3, 2, 0, 6, 0, 0, 0], 6, 3)
}

#[test]
fn thirty_items_are_the_most(rt: HostRuntime) -> Result<(), Fail> {
    let many = rising(rt.alloc(), 31)?;
    check_refused(&rt, many.as_slice(), 3, 32)?;
    let full = rising(rt.alloc(), 30)?;
    let mut table = OrderTable::fresh();
    table.load(full.as_slice())?;
    assert_eq!(rt; table.items(), ItemSet::all_below(30));
    assert!(rt; table.is_state(ItemSet::all_below(29)));
    assert!(rt; !table.is_state(ItemSet::EMPTY.with(29)));
    Ok(())
}
