//! Tests of what no contract says: texts and the words and numbers in them.
use crate::scripts::check;
use std::alloc::AllocError;

/// The first four lines of a text; a word that is not taken, and then four that are.
const PARTS: &str = "\
text one two||three  four = [one two] [] [three  four] none
line one two = [one] [one] [two] none none
line three  four = [three] [three] [] [four] none
";

#[test]
fn a_text_has_lines_of_words(rt: HostRuntime) -> Result<(), AllocError> {
    check(&rt, rt.alloc(), PARTS)
}

/// What is before and after the first colon, and before and after the one colon; signs; and
/// numbers between two in hexadecimal digits.
const WORDS: &str = "\
cut a:b:c = [a] [b:c]
cut abc = [abc] none
two a:bc = [a] [bc]
two a:b:c = none
two abc = none
sign + = yes
sign - = no
sign * = none
number 0 00 09 = 0
number 18446744073709551615 00 ffffffffffffffff = 18446744073709551615
number 18446744073709551616 00 ffffffffffffffff = none
number 263 00 0107 = 263
number 264 00 0107 = none
number 0 01 09 = none
number 07 00 09 = none
number +7 00 09 = none
number 7a 00 63 = none
number  00 09 = none
";

#[test]
fn words_have_one_reading(rt: HostRuntime) -> Result<(), AllocError> {
    check(&rt, rt.alloc(), WORDS)
}
