//! Out of memory in copies of elements, ranges and sets.
use range_collections::{Copier, EntryClone, EntryCopier, RangeSet, RangeSetRange};
use range_tests_kit::lists::own;
use range_tests_kit::starving::{Answer, Call, Starved};
use range_tests_kit::ways::set_is;
use std::alloc::{AllocError, Global};

// What a copy says of the value that was copied.
fn copied<T: PartialEq + Drop>(made: Result<T, AllocError>, value: &T) -> Answer {
    match made {
        Ok(made) => Answer::right_if(made == *value),
        Err(_) => Answer::Refused,
    }
}

// A clone of an element, and a copy by a copier.
#[derive(Drop)]
enum OfElement<'a, T> {
    Cloned(&'a T),
    ByCopier(&'a T),
}

impl<'a, T: EntryClone + Drop> Call for OfElement<'a, T> {
    type Given = ();

    fn given(&self) -> Option<()> {
        Some(())
    }

    fn answer(&self, _given: ()) -> Answer {
        match self {
            OfElement::Cloned(item) => copied(item.entry_clone(), item),
            OfElement::ByCopier(item) => copied(EntryCopier.copy(*item), item),
        }
    }
}

// Whether both copies of the element are refused.
fn refuse<T: EntryClone + Drop>(starved: &mut Starved, item: &T) -> bool {
    starved.refuses(&OfElement::Cloned(item)) && starved.refuses(&OfElement::ByCopier(item))
}

fn text(alloc: Global, text: &str) -> Result<String, AllocError> {
    String::from_str(alloc, text)
}

// The texts `ab` and `cd`, with nothing between them.
fn options(alloc: Global) -> Result<Vec<Option<String>>, AllocError> {
    let mut list = Vec::new(alloc);
    list.push(Some(text(alloc, "ab")?))?;
    list.push(None)?;
    list.push(Some(text(alloc, "cd")?))?;
    Ok(list)
}

#[test]
fn copies_of_elements_are_refused(rt: HostRuntime) -> Result<(), AllocError> {
    let alloc = rt.alloc();
    let (one, some) = (text(alloc, "ab")?, Some(text(alloc, "ab")?));
    let (bytes, list) = ([1u8, 2].to_vec(alloc)?, options(alloc)?);
    let mut starved = Starved::new(alloc)?;
    assert!(rt; refuse(&mut starved, &one), "a text");
    assert!(rt; refuse(&mut starved, &some), "an option");
    assert!(rt; refuse(&mut starved, &bytes), "a list of bytes");
    assert!(rt; refuse(&mut starved, &list), "a list of options");
    Ok(())
}

// A copy of a range of references, and a clone of the range.
#[derive(Drop)]
enum OfRange<'a> {
    Borrowed(RangeSetRange<&'a String>, &'a RangeSetRange<String>),
    Cloned(&'a RangeSetRange<String>),
}

impl<'a> Call for OfRange<'a> {
    type Given = ();

    fn given(&self) -> Option<()> {
        Some(())
    }

    fn answer(&self, _given: ()) -> Answer {
        match self {
            OfRange::Borrowed(range, want) => copied(range.cloned(), want),
            OfRange::Cloned(range) => copied((*range).clone(), *range),
        }
    }
}

#[test]
fn copies_of_ranges_are_refused(rt: HostRuntime) -> Result<(), AllocError> {
    let alloc = rt.alloc();
    let (start, end) = (text(alloc, "ab")?, text(alloc, "cd")?);
    let range = RangeSetRange::from(text(alloc, "ab")?..text(alloc, "cd")?);
    let endless = RangeSetRange::from(text(alloc, "ab")?..);
    let mut starved = Starved::new(alloc)?;
    let calls = [
        OfRange::Borrowed(RangeSetRange::from(&start..&end), &range),
        OfRange::Cloned(&range),
        OfRange::Borrowed(RangeSetRange::from(&start..), &endless),
        OfRange::Cloned(&endless),
    ];
    for (number, call) in calls.iter().enumerate() {
        assert!(rt; starved.refuses(call), "copy {number}");
    }
    Ok(())
}

// A clone of a set with room for N boundaries, and its negation where it is borrowed and where it
// is owned.
#[derive(Clone, Copy, Debug)]
enum OfSet {
    Clone,
    Not,
    NotOwned,
}

#[derive(Drop)]
struct Attempt<'a, const N: usize> {
    alloc: Global,
    call: OfSet,
    items: &'a [i64],
    want: &'a [i64],
}

impl<'a, const N: usize> Call for Attempt<'a, N> {
    type Given = RangeSet<i64, N>;

    fn given(&self) -> Option<Self::Given> {
        own(self.alloc, self.items)
    }

    fn answer(&self, set: Self::Given) -> Answer {
        match self.call {
            OfSet::Clone => set_is(set.clone(), self.want),
            OfSet::Not => set_is(!&set, self.want),
            OfSet::NotOwned => set_is(!set, self.want),
        }
    }
}

const LEAST: i64 = i64::MIN;

const ITEMS: &[i64] = &[20, 30, 40];

const NEGATED: &[i64] = &[LEAST, 20, 30, 40];

// A call, the boundaries of the set, and those of what it makes.
#[derive(Clone, Copy, Debug)]
struct Row<'a> {
    call: OfSet,
    items: &'a [i64],
    want: &'a [i64],
}

impl<'a> Row<'a> {
    // The call on a set with room for N.
    fn attempt<const N: usize>(&self, alloc: Global) -> Attempt<'a, N> {
        Attempt {
            alloc,
            call: self.call,
            items: self.items,
            want: self.want,
        }
    }
}

// With room for two.
#[rattlefmt::skip]
const REFUSED: [Row; 3] = [
    Row { call: OfSet::Clone, items: ITEMS, want: ITEMS },
    Row { call: OfSet::Not, items: ITEMS, want: NEGATED },
    Row { call: OfSet::NotOwned, items: ITEMS, want: NEGATED },
];

// With room for one.
#[rattlefmt::skip]
const UNREFUSED: [Row; 3] = [
    Row { call: OfSet::Clone, items: &[5], want: &[5] },
    Row { call: OfSet::Not, items: &[LEAST], want: &[] },
    Row { call: OfSet::NotOwned, items: &[LEAST], want: &[] },
];

#[test]
fn copies_of_sets_are_refused_beyond_their_room(rt: HostRuntime) -> Result<(), AllocError> {
    let alloc = rt.alloc();
    let mut starved = Starved::new(alloc)?;
    for row in &REFUSED {
        assert!(rt; starved.refuses(&row.attempt::<2>(alloc)), "{row:?}");
    }
    for row in &UNREFUSED {
        assert!(rt; starved.needs_none(&row.attempt::<1>(alloc)), "{row:?}");
    }
    Ok(())
}
