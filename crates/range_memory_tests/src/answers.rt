//! Out of memory in what answers the words of the calculator: the line says so until there is
//! enough for the answer, and never anything else.
use range_calc_answers::{Status, answer};
use range_tests_kit::starving::{Answer, Call, Starved};
use range_tests_kit::words::{ANSWERED, BAD, Row, TEXTS, UNREAD, UNSORTED, UNSORTED_AND_LONG};
use std::alloc::{AllocError, Global};

// The words of a row: cut at each blank, a text of `json`, or none.
#[derive(Clone, Copy)]
enum Words {
    Command,
    Text,
    Nothing,
}

impl Words {
    fn of(self, alloc: Global, row: &str) -> Result<Vec<String>, AllocError> {
        let mut words = Vec::new(alloc);
        match self {
            Words::Command => {
                for word in row.split(' ') {
                    words.push(String::from_str(alloc, word)?)?;
                }
            }
            Words::Text => {
                words.push(String::from_str(alloc, "json")?)?;
                words.push(String::from_str(alloc, row)?)?;
            }
            Words::Nothing => {}
        }
        Ok(words)
    }
}

fn status_of(line: &str) -> Status {
    match line {
        "bad words" => Status::BadWords,
        "not strictly sorted" => Status::NotSorted,
        "bad json" => Status::BadJson,
        _ => Status::Answered,
    }
}

#[derive(Drop)]
struct Asking {
    alloc: Global,
    words: Words,
    row: Row,
}

impl Call for Asking {
    // The words, and an output with room for the line.
    type Given = (Vec<String>, Vec<u8>);

    fn given(&self) -> Option<Self::Given> {
        let words = self.words.of(self.alloc, self.row.given).ok()?;
        Some((words, Vec::with_capacity(self.alloc, 128).ok()?))
    }

    fn answer(&self, given: Self::Given) -> Answer {
        let (words, mut out) = given;
        let line = self.row.line;
        match (
            answer(self.alloc, words.as_slice(), &mut out),
            out.split_last(),
        ) {
            (Ok(Status::NoMemory), Some((b'\n', b"out of memory"))) => Answer::Refused,
            (Ok(status), Some((b'\n', written))) => {
                Answer::right_if(status == status_of(line) && written == line.as_bytes())
            }
            _ => Answer::Wrong,
        }
    }
}

// Whether memory runs out where none is left, and is enough from 1,600 bytes on. In between it is
// one or the other, since a hole that a request left may be of no use to the next one.
fn runs_out(starved: &mut Starved, asking: &Asking) -> bool {
    for round in 0..120usize {
        let may_come = match starved.answer_in(16 * round, asking) {
            Answer::Refused => round < 100,
            Answer::Right => round > 0,
            Answer::Wrong => false,
        };
        if !may_come {
            return false;
        }
    }
    true
}

// The first row that isn't answered so, or else without memory.
fn wrong(alloc: Global, words: Words, rows: &[Row], asks: bool) -> Result<Option<Row>, AllocError> {
    let mut starved = Starved::with_rounds(alloc, 14_000)?;
    for row in rows {
        let asking = Asking {
            alloc,
            words,
            row: *row,
        };
        let is_right = if asks {
            runs_out(&mut starved, &asking)
        } else {
            starved.refuses_a_byte() && starved.room_for(&asking) == Some(0)
        };
        if !is_right {
            return Ok(Some(*row));
        }
    }
    Ok(None)
}

#[test]
fn memory_runs_out_until_there_is_enough(rt: HostRuntime) -> Result<(), AllocError> {
    let alloc = rt.alloc();
    assert_eq!(rt; wrong(alloc, Words::Command, &ANSWERED, true)?, None);
    assert_eq!(rt;
        wrong(alloc, Words::Command, &UNSORTED_AND_LONG, true)?,
        None
    );
    assert_eq!(rt; wrong(alloc, Words::Text, &TEXTS, true)?, None);
    assert_eq!(rt; wrong(alloc, Words::Text, &UNREAD, true)?, None);
    Ok(())
}

#[test]
fn words_that_ask_for_no_memory_need_none(rt: HostRuntime) -> Result<(), AllocError> {
    let alloc = rt.alloc();
    assert_eq!(rt; wrong(alloc, Words::Command, &UNSORTED, false)?, None);
    assert_eq!(rt; wrong(alloc, Words::Command, &BAD, false)?, None);
    let [given, line] = ["", "bad json"];
    assert_eq!(rt;
        wrong(alloc, Words::Text, &[Row { given, line }], false)?,
        None
    );
    let line = "bad words";
    assert_eq!(rt;
        wrong(alloc, Words::Nothing, &[Row { given, line }], false)?,
        None
    );
    Ok(())
}
