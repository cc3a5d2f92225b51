// Issuing, redeeming and the holding query: questions 8 to 11.
use crate::tell;

pub(crate) fn questions(rt: &impl Print) {
    tell::calls(
        rt,
        tell::open(),
        &[
            ("issue to card 0", "I 0 1 1"),
            ("issue to card 4", "I 4 1 1"),
            ("issue of kind 0", "I 1 0 1"),
            ("issue of kind 17", "I 1 17 1"),
            ("issue to card 4 of kind 17", "I 4 17 1"),
            ("redeem of card 4294967295", "D 4294967295 1 0"),
            ("redeem of kind 17", "D 1 17 0"),
            ("holding of card 33", "H 33 1"),
            ("holding of kind 4294967295", "H 1 4294967295"),
            ("holding in a fresh engine", "H 3 16"),
            ("issue of 5", "I 3 16 5"),
            ("redeem of 6", "D 3 16 6"),
            ("redeem of 5", "D 3 16 5"),
            ("redeem of 1 more", "D 3 16 1"),
            ("redeem of 0", "D 3 16 0"),
            ("holding then", "H 3 16"),
        ],
    );
}

pub(crate) fn sums(rt: &impl Print) {
    tell::calls(
        rt,
        tell::open(),
        &[
            ("issue of 1,000,000,001", "I 1 1 1000000001"),
            ("issue of 999,999,999", "I 1 1 999999999"),
            ("issue of 1 to another card", "I 2 1 1"),
            ("issue of one more", "I 3 1 1"),
            ("issue of 0", "I 3 1 0"),
            ("issue of another kind", "I 3 2 1000000000"),
            ("issue of 4294967295", "I 3 2 4294967295"),
            ("holding of card 1", "H 1 1"),
        ],
    );
}
