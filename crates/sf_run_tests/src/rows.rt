//! A row of a number and a text.
use sf_base::{Kind, Value};
use sf_read::Row;
use sf_rows::{Named, is};
use std::test::Fail;

/// The count of slots, and the kinds of the slots 0 to 3, by the trait's own calls.
fn shape_of<T: Row>() -> (u8, [Option<Kind>; 4]) {
    (
        T::slots(),
        [T::shape(0), T::shape(1), T::shape(2), T::shape(3)],
    )
}

#[test]
fn a_row_has_a_shape(_rt: HostRuntime) -> Result<(), Fail> {
    let kinds = [None, Some(Kind::I32), Some(Kind::Text), None];
    is(&shape_of::<Named>(), &(2, kinds), &"the shape")
}

/// How many values the row lists, and the second of them.
fn listed<T: Row>(row: &T) -> (usize, Option<Value<'_>>) {
    let values = row.with_values();
    (values.len(), values.as_slice().get(1).copied())
}

#[test]
fn a_row_lists_its_values(rt: HostRuntime) -> Result<(), Fail> {
    let mut name = Vec::new(rt.alloc());
    name.extend_from_slice(b"up")?;
    let row = Named { number: 7, name };
    is(&listed(&row), &(2, Some(Value::Text(b"up"))), &"the values")
}
