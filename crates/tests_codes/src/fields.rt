//! Sums, products, powers and inverses of the field, worked by hand.
use crate::plain::assert_no_row;
use mf_field::{add, inv, mul, pow};

// Two numbers, their product and their sum: at 0, at 1, and at the first products that are reduced.
static PRODUCTS: [(u8, u8, u8, u8); 5] = [
    (0, 0xab, 0, 0xab),
    (1, 0xab, 0xab, 0xaa),
    (2, 0x80, 0x1d, 0x82),
    (4, 0xab, 0x96, 0xaf),
    (0x96, 0xa5, 0x1f, 0x33),
];

// A number, an exponent and the power. 1, 2 ^ 10 and 2 ^ 21 add up to 0, and so do their squares
// and their fourth powers.
static POWERS: [(u8, u32, u8); 10] = [
    (2, 10, 116),
    (2, 21, 117),
    (2, 20, 180),
    (2, 42, 181),
    (2, 40, 106),
    (2, 84, 107),
    (2, 255, 1),
    (3, 4_294_967_295, 1),
    (0, 0, 1),
    (0, 5, 0),
];

static INVERSES: [(u8, Option<u8>); 4] = [
    (0, None),
    (1, Some(1)),
    (2, Some(0x8e)),
    (0x8e, Some(2)),
];

fn first_other_product() -> Option<usize> {
    for (row, (a, b, product, total)) in PRODUCTS.iter().enumerate() {
        if mul(*a, *b) != *product || add(*a, *b) != *total {
            return Some(row);
        }
    }
    None
}

fn first_other_power() -> Option<usize> {
    for (row, (a, e, power)) in POWERS.iter().enumerate() {
        if pow(*a, *e) != *power {
            return Some(row);
        }
    }
    None
}

fn first_other_inverse() -> Option<usize> {
    for (row, (a, inverse)) in INVERSES.iter().enumerate() {
        if inv(*a) != *inverse {
            return Some(row);
        }
    }
    None
}

#[test]
fn products_powers_and_inverses(rt: HostRuntime) {
    assert_no_row(&rt, first_other_product());
    assert_no_row(&rt, first_other_power());
    assert_no_row(&rt, first_other_inverse());
}
