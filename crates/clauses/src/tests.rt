// Records at the edges of what is taken.
use super::*;
use item_sets::ItemSet;
use records::Table;
use refusals::Layer;
use spaces::Space;
use std::alloc::{AllocError, Global};
use std::process::Abort;
use std::test::Fail;

// Item 0 needs item 2; items 1 and 2 need nothing.
const THREE: [u8; 23] = [
    0, 4, 0, 0, 0, 1, 0, 0, 0, 0, 2, 0, 0, 0, 0, 67, 3, 3, 0, 15, 0, 0, 0,
];

// Loads `THREE` into a table and then `bytes`, which must be refused as told and leave the table.
// What is told is held against the rules' numbers, and against no `Refusal`, whose numbers are then tried too. The tests of the
// other sort of table have the like: one for both would need a crate of its own.
fn refused(
    rt: &impl Abort,
    bytes: &[u8],
    number: u8,
    layer: Layer,
    place: u64,
) -> Result<(), Fail> {
    let mut table = ClauseTable::fresh();
    assert!(rt; table.load(&THREE).is_ok());
    match table.load(bytes) {
        Ok(()) => return Err(Fail::new("it was taken")),
        Err(refusal) => {
            assert_eq!(rt; refusal.number(), number);
            assert_eq!(rt; refusal.layer(), layer);
            assert_eq!(rt; refusal.place(), place);
        }
    }
    has_the_states_of_three(rt, &table);
    Ok(())
}

fn has_the_states_of_three(rt: &impl Abort, table: &ClauseTable) {
    assert_eq!(rt; table.items().number, 7);
    for number in 0..64u32 {
        let expected = matches!(number, 0 | 2 | 4 | 5 | 6 | 7);
        assert_eq!(rt; table.is_state(ItemSet { number }), expected);
    }
}

#[test]
fn three_items_load(rt: HostRuntime) {
    let mut table = ClauseTable::fresh();
    assert_eq!(rt; table.items().number, 1);
    assert!(rt; table.load(&THREE).is_ok());
    assert_eq!(rt; table.row_count(), 3);
    has_the_states_of_three(&rt, &table);
}

#[test]
fn trailers_are_refused(rt: HostRuntime) -> Result<(), Fail> {
    refused(&rt, &[67, 1, 1, 0, 5, 0, 0], 1, Layer::Record, 7)?;
    refused(
        &rt,
        &[0, 0, 0, 0, 0, 79, 1, 1, 0, 5, 0, 0, 0],
        2,
        Layer::Record,
        5,
    )?;
    refused(
        &rt,
        &[0, 0, 0, 0, 0, 67, 0, 1, 0, 5, 0, 0, 0],
        3,
        Layer::Record,
        6,
    )?;
    refused(
        &rt,
        &[0, 0, 0, 0, 0, 67, 31, 1, 0, 5, 0, 0, 0],
        3,
        Layer::Record,
        6,
    )?;
    refused(&rt, &[67, 1, 0, 0, 0, 0, 0, 0], 4, Layer::Record, 2)?;
    refused(
        &rt,
        &[0, 0, 0, 0, 0, 67, 1, 121, 0, 5, 0, 0, 0],
        4,
        Layer::Record,
        7,
    )?;
    refused(
        &rt,
        &[0, 0, 0, 0, 0, 67, 1, 1, 0, 6, 0, 0, 0],
        5,
        Layer::Record,
        9,
    )?;
    refused(
        &rt,
        &[0, 0, 0, 0, 0, 0, 67, 1, 1, 0, 5, 0, 0, 0],
        5,
        Layer::Record,
        10,
    )
}

#[test]
fn rows_are_refused(rt: HostRuntime) -> Result<(), Fail> {
    refused(
        &rt,
        &[1, 0, 0, 0, 0, 67, 1, 1, 0, 5, 0, 0, 0],
        6,
        Layer::Record,
        0,
    )?;
    refused(
        &rt,
        &[0, 2, 0, 0, 0, 67, 1, 1, 0, 5, 0, 0, 0],
        6,
        Layer::Record,
        0,
    )?;
    refused(
        &rt,
        &[0, 1, 0, 0, 0, 67, 1, 1, 0, 5, 0, 0, 0],
        6,
        Layer::Record,
        0,
    )?;
    refused(
        &rt,
        &[1, 0, 0, 0, 0, 0, 0, 0, 0, 0, 67, 2, 2, 0, 10, 0, 0, 0],
        6,
        Layer::Record,
        5,
    )
}

#[test]
fn items_out_of_reach_are_refused(rt: HostRuntime) -> Result<(), Fail> {
    refused(
        &rt,
        &[0, 0, 0, 0, 0, 67, 2, 1, 0, 5, 0, 0, 0],
        8,
        Layer::Table,
        1,
    )?;
    refused(
        &rt,
        &[0, 2, 0, 0, 0, 1, 1, 0, 0, 0, 67, 2, 2, 0, 10, 0, 0, 0],
        8,
        Layer::Table,
        0,
    )
}

// A record of `items` items, each with `rows` rows that need nothing.
fn free(heap: Global, items: u8, rows: u8) -> Result<Vec<u8>, AllocError> {
    let mut bytes = Vec::new(heap);
    for item in 0..items {
        for _ in 0..rows {
            bytes.extend_from_slice(&[item, 0, 0, 0, 0])?;
        }
    }
    let count = u16::from(items).wrapping_mul(u16::from(rows));
    let [c0, c1] = count.to_le_bytes();
    let [d0, d1] = count.wrapping_mul(5).to_le_bytes();
    bytes.extend_from_slice(&[67, items, c0, c1, d0, d1, 0, 0])?;
    Ok(bytes)
}

#[test]
fn thirty_items_with_four_rows_load(rt: HostRuntime) -> Result<(), Fail> {
    let mut table = ClauseTable::fresh();
    let full = free(rt.alloc(), 30, 4)?;
    assert!(rt; table.load(full.as_slice()).is_ok());
    assert_eq!(rt; table.items().number, 1073741823);
    assert_eq!(rt; table.row_count(), 120);
    assert!(rt; table.is_state(ItemSet { number: 536870912 }));
    assert!(rt; !table.is_state(ItemSet { number: 1073741824 }));
    let five = free(rt.alloc(), 1, 5)?;
    refused(&rt, five.as_slice(), 6, Layer::Record, 20)?;
    let many = free(rt.alloc(), 31, 1)?;
    refused(&rt, many.as_slice(), 3, Layer::Record, 156)
}
