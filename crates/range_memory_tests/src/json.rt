//! Out of memory in reading and writing JSON. All items are looked at before memory is asked for,
//! so a value that is no array of numbers needs none.
use range_collections::{JsonError, RangeSet2};
use range_tests_kit::lists::own;
use range_tests_kit::starving::{Answer, Call, Starved};
use serde_json::Value;
use std::alloc::{AllocError, Global};

// A text of JSON, and what its value says.
#[derive(Clone, Copy)]
struct Row<'a> {
    text: &'a str,
    want: Result<&'a [i64], JsonError>,
}

#[rattlefmt::skip]
const ROWS: [Row; 3] = [
    Row { text: "[40,20,30,20]", want: Ok(&[20, 30, 40]) },
    Row { text: "{}", want: Err(JsonError::NotArray) },
    Row { text: "[1,2.5]", want: Err(JsonError::NotInteger { index: 1 }) },
];

#[derive(Drop)]
struct Reading<'a> {
    alloc: Global,
    row: Row<'a>,
}

impl<'a> Call for Reading<'a> {
    type Given = Value;

    fn given(&self) -> Option<Value> {
        Value::from_str(self.alloc, self.row.text).ok()
    }

    fn answer(&self, value: Value) -> Answer {
        match (
            RangeSet2::<i64>::from_json(self.alloc, &value),
            self.row.want,
        ) {
            (Ok(set), Ok(want)) => Answer::right_if(set.boundaries() == want),
            (Err(JsonError::OutOfMemory), _) => Answer::Refused,
            (Err(error), Err(want)) => Answer::right_if(error == want),
            _ => Answer::Wrong,
        }
    }
}

// Whether the value is the array of these numbers.
fn has_numbers(value: &Value, want: &[i64]) -> bool {
    let Some(list) = value.as_array() else {
        return false;
    };
    if list.len() != want.len() {
        return false;
    }
    for i in 0..want.len() {
        if list[i].as_i64() != Some(want[i]) {
            return false;
        }
    }
    true
}

// The array of a set of three numbers.
#[derive(Drop)]
struct Writing {
    alloc: Global,
}

impl Call for Writing {
    type Given = RangeSet2<i64>;

    fn given(&self) -> Option<RangeSet2<i64>> {
        own(self.alloc, &[20, 30, 40])
    }

    fn answer(&self, set: RangeSet2<i64>) -> Answer {
        match set.to_json() {
            Ok(value) => Answer::right_if(has_numbers(&value, &[20, 30, 40])),
            Err(_) => Answer::Refused,
        }
    }
}

#[test]
fn arrays_are_refused(rt: HostRuntime) -> Result<(), AllocError> {
    let alloc = rt.alloc();
    let mut starved = Starved::new(alloc)?;
    for row in ROWS {
        let agrees = starved.agrees(&Reading { alloc, row }, row.want.is_ok());
        assert!(rt; agrees, "{}", row.text);
    }
    assert!(rt; starved.refuses(&Writing { alloc }), "written");
    Ok(())
}
