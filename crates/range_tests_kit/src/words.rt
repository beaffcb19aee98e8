//! Words and what answers them, each as a row of what is given and the line that is written for it.

/// What is given, and the line that answers it.
#[derive(Clone, Copy, PartialEq, Eq, Debug)]
pub struct Row {
    pub given: &'static str,
    pub line: &'static str,
}

/// Commands, cut into words at each blank.
#[rattlefmt::skip]
pub const ANSWERED: [Row; 54] = [
    Row { given: "union 0,10 20", line: "0,10,20" },
    Row { given: "union 0,5 5,10", line: "0,10" },
    Row { given: "union 0,10 5,15", line: "0,15" },
    Row { given: "union 0,2,4 1,3,5", line: "0,3,4" },
    Row { given: "union 0,10 0,10", line: "0,10" },
    Row { given: "union 0,10 -", line: "0,10" },
    Row { given: "union +5 -", line: "5" },
    Row { given: "union -0,1 -", line: "0,1" },
    Row { given: "union -0 -", line: "0" },
    Row { given: "union - 007", line: "7" },
    Row { given: "union - -", line: "-" },
    Row { given: "union -9223372036854775808 9223372036854775807", line: "-9223372036854775808" },
    Row { given: "union 9223372036854775807 -", line: "9223372036854775807" },
    Row { given: "intersection 0,5 -", line: "-" },
    Row { given: "intersection 0,10 5,15", line: "5,10" },
    Row { given: "difference 0,10 3,5", line: "0,3,5,10" },
    Row { given: "symmetric_difference 0,10 0,10", line: "-" },
    Row { given: "symmetric_difference 0,10 5,15", line: "0,5,10,15" },
    Row { given: "disjoint 0,5 5,10", line: "true" },
    Row { given: "disjoint 0,6 5,10", line: "false" },
    Row { given: "subset 0,10 0,5", line: "false" },
    Row { given: "subset 0,5 0,10", line: "true" },
    Row { given: "superset 0,10 0,5", line: "true" },
    Row { given: "superset 0,5 0,10", line: "false" },
    Row { given: "union 00,1 -", line: "0,1" },
    Row { given: "union -5,5 -10", line: "-10" },
    Row { given: "contains 0 1", line: "true" },
    Row { given: "contains -5 -5", line: "true" },
    Row { given: "contains 9223372036854775807 9223372036854775807", line: "true" },
    Row { given: "contains 0,10 10", line: "false" },
    Row { given: "contains - 0", line: "false" },
    Row { given: "split 0,2 2", line: "0 -" },
    Row { given: "split 0,2,4,8 6", line: "0,2,4 4,8" },
    Row { given: "split 0,2,4,8 3", line: "0,2 4,8" },
    Row { given: "split 0,2,4,8 2", line: "0 4,8" },
    Row { given: "split 0,2,4 9", line: "0,2,4 4" },
    Row { given: "split - 5", line: "- -" },
    Row { given: "split 5 5", line: "- 5" },
    Row { given: "not 1,5", line: "-9223372036854775808,1,5" },
    Row { given: "not -9223372036854775808", line: "-" },
    Row { given: "not -9223372036854775808,5", line: "5" },
    Row { given: "not -", line: "-9223372036854775808" },
    Row { given: "not 9223372036854775807", line: "-9223372036854775808,9223372036854775807" },
    Row { given: "show 0,10,20", line: "RangeSet{0..10, 20..}" },
    Row { given: "show 0,10", line: "RangeSet{0..10}" },
    Row { given: "show -5", line: "RangeSet{-5..}" },
    Row { given: "show -", line: "RangeSet{}" },
    Row { given: "to_json 0,10", line: "[0,10]" },
    Row { given: "to_json -", line: "[]" },
    Row {
        given: "to_json -9223372036854775808,-1,9223372036854775807",
        line: "[-9223372036854775808,-1,9223372036854775807]",
    },
    Row { given: "union 0,10 20,30,40", line: "0,10,20,30,40" },
    Row { given: "subset 0,5,9 0,10", line: "false" },
    Row { given: "contains 0,10,20 5", line: "true" },
    Row { given: "split 0,2,4 2", line: "0 4" },
];

/// Commands with a list that isn't strictly sorted, and none of more than two numbers.
#[rattlefmt::skip]
pub const UNSORTED: [Row; 11] = [
    Row { given: "union 3,2 1", line: "not strictly sorted" },
    Row { given: "union 1 3,2", line: "not strictly sorted" },
    Row { given: "union 1,1 2", line: "not strictly sorted" },
    Row { given: "union 0,-0 2", line: "not strictly sorted" },
    Row { given: "superset 0,5 3,2", line: "not strictly sorted" },
    Row { given: "contains 3,2 1", line: "not strictly sorted" },
    Row { given: "split 3,2 1", line: "not strictly sorted" },
    Row { given: "not 1,1", line: "not strictly sorted" },
    Row { given: "not 3,2", line: "not strictly sorted" },
    Row { given: "show 3,2", line: "not strictly sorted" },
    Row { given: "to_json 3,2", line: "not strictly sorted" },
];

/// Commands with a list that isn't strictly sorted, and one of more than two numbers.
#[rattlefmt::skip]
pub const UNSORTED_AND_LONG: [Row; 3] = [
    Row { given: "union 3,2 1,2,3", line: "not strictly sorted" },
    Row { given: "contains 3,2,1 1", line: "not strictly sorted" },
    Row { given: "superset 0,5,7 3,2", line: "not strictly sorted" },
];

/// What is no command with what it takes.
#[rattlefmt::skip]
pub const BAD: [Row; 50] = [
    Row { given: "union 9223372036854775808 1", line: "bad words" },
    Row { given: "union -9223372036854775809 1", line: "bad words" },
    Row { given: "union 1", line: "bad words" },
    Row { given: "union", line: "bad words" },
    Row { given: "union 1, 2", line: "bad words" },
    Row { given: "union ,1 2", line: "bad words" },
    Row { given: "union 1,,2 3", line: "bad words" },
    Row { given: "union 1 ", line: "bad words" },
    Row { given: "union  1", line: "bad words" },
    Row { given: "", line: "bad words" },
    Row { given: "UNION 1 2", line: "bad words" },
    Row { given: "union 1 2 3", line: "bad words" },
    Row { given: "union + 1", line: "bad words" },
    Row { given: "union 1,- 2", line: "bad words" },
    Row { given: "union 3,2 x", line: "bad words" },
    Row { given: "difference 0,10", line: "bad words" },
    Row { given: "subset 0,5 x", line: "bad words" },
    Row { given: "contains 3,2 x", line: "bad words" },
    Row { given: "contains - -", line: "bad words" },
    Row { given: "contains 0 1,2", line: "bad words" },
    Row { given: "union x 1", line: "bad words" },
    Row { given: "union 1,1 x", line: "bad words" },
    Row { given: "not", line: "bad words" },
    Row { given: "not x", line: "bad words" },
    Row { given: "not 1 2", line: "bad words" },
    Row { given: "NOT 1", line: "bad words" },
    Row { given: "show", line: "bad words" },
    Row { given: "show x", line: "bad words" },
    Row { given: "show 1 2", line: "bad words" },
    Row { given: "to_json", line: "bad words" },
    Row { given: "to_json [1]", line: "bad words" },
    Row { given: "to_json 1 2", line: "bad words" },
    Row { given: "json", line: "bad words" },
    Row { given: "json [1] x", line: "bad words" },
    Row { given: "json 1 2 3", line: "bad words" },
    Row { given: "split 0,2", line: "bad words" },
    Row { given: "split 0,2 x", line: "bad words" },
    Row { given: "split 0,2 -", line: "bad words" },
    Row { given: "split x 2", line: "bad words" },
    Row { given: "split 3,2 x", line: "bad words" },
    Row { given: "split 0,2 2 3", line: "bad words" },
    Row { given: "contains 0", line: "bad words" },
    Row { given: "not 3,2 1", line: "bad words" },
    Row { given: "noth 1", line: "bad words" },
    Row { given: "not ", line: "bad words" },
    Row { given: "contains  1", line: "bad words" },
    Row { given: "split 1 ", line: "bad words" },
    Row { given: " 1 2", line: "bad words" },
    Row { given: "union 1,2,3 x", line: "bad words" },
    Row { given: "json [1] [2]", line: "bad words" },
];

/// Texts of `json`, each as one word.
#[rattlefmt::skip]
pub const TEXTS: [Row; 6] = [
    Row { given: "[5,1,5]", line: "1,5" },
    Row { given: "[2,1,2]", line: "1,2" },
    Row { given: "[]", line: "-" },
    Row { given: "[3,-2]", line: "-2,3" },
    Row {
        given: "[-9223372036854775808,9223372036854775807]",
        line: "-9223372036854775808,9223372036854775807",
    },
    Row { given: " [ 2 , 1 ] ", line: "1,2" },
];

/// Texts of `json` that are no array of whole numbers. The empty text, the only one that asks for
/// no memory, isn't among them.
#[rattlefmt::skip]
pub const UNREAD: [Row; 25] = [
    Row { given: "{}", line: "bad json" },
    Row { given: "null", line: "bad json" },
    Row { given: "5", line: "bad json" },
    Row { given: "[01]", line: "bad json" },
    Row { given: "[+1]", line: "bad json" },
    Row { given: "1,5", line: "bad json" },
    Row { given: "-", line: "bad json" },
    Row { given: "[", line: "bad json" },
    Row { given: "[1,", line: "bad json" },
    Row { given: "[[1]]", line: "bad json" },
    Row { given: "[\"1\"]", line: "bad json" },
    Row { given: "[1.0]", line: "bad json" },
    Row { given: "[1e0]", line: "bad json" },
    Row { given: "[-0]", line: "bad json" },
    Row { given: "[9223372036854775808]", line: "bad json" },
    Row { given: "[-9223372036854775809]", line: "bad json" },
    Row { given: "[1,]", line: "bad json" },
    Row { given: "[1] x", line: "bad json" },
    Row { given: "[5", line: "bad json" },
    Row { given: "[5,", line: "bad json" },
    Row { given: "[5,1", line: "bad json" },
    Row { given: "[5,1,", line: "bad json" },
    Row { given: "[5,1,5", line: "bad json" },
    Row { given: "[1,{\"a\":[2]}]", line: "bad json" },
    Row {
        given: "[[[[[[[[[[[[[[[[[[[[[[[[[[[[[[[[[[[[[[[[[[[[[[[[[[[[[[[[[[[[[[[[[[[[[[[[[[[[[[[[[[[[[[[[[[[[[[[[[[[[[[[[[[[[[[[[[[[[[[[[[[[[[[[[]]]]]]]]]]]]]]]]]]]]]]]]]]]]]]]]]]]]]]]]]]]]]]]]]]]]]]]]]]]]]]]]]]]]]]]]]]]]]]]]]]]]]]]]]]]]]]]]]]]]]]]]]]]]]]]]]]]]]]]]]]]]]]]]",
        line: "bad json",
    },
];
