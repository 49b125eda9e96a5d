//! Worked values, at ordinary numbers and at the ends of i128.

use super::{Field, Quad, Sign, TooWide, content, primitive_part, reduce};
use std::test::Fail;

const MAX: i128 = i128::MAX;

const MIN: i128 = i128::MIN;

fn quad(a: i128, b: i128) -> Quad {
    Quad { a, b }
}

#[test]
fn makes_the_fields_of_square_free_numbers(rt: HostRuntime) {
    for d in [2, 3, 13, 94, 997] {
        assert_eq!(rt;
            Field::make(d).map(|field| field.number()),
            Some(d),
            "at {d}"
        );
    }
    for d in [0, 1, 4, 8, 9, 12, 996, 1000, 1001, u32::MAX] {
        assert!(rt; Field::make(d).is_none(), "at {d}");
    }
}

#[test]
fn adds_and_subtracts(rt: HostRuntime) -> Result<(), Fail> {
    let field = Field::make(2).ok_or("2 is square-free")?;
    for (x, y, sum) in [
        (quad(1, 2), quad(3, -5), Ok(quad(4, -3))),
        (quad(MAX, MIN), quad(MIN, MAX), Ok(quad(-1, -1))),
        (quad(MAX, 0), quad(1, 0), Err(TooWide)),
        (quad(0, MAX), quad(0, 1), Err(TooWide)),
        (quad(MIN, 0), quad(-1, 0), Err(TooWide)),
        (quad(0, MIN), quad(0, -1), Err(TooWide)),
    ] {
        assert_eq!(rt; field.add(x, y), sum, "{x:?} and {y:?}");
    }
    for (x, y, difference) in [
        (quad(1, 2), quad(3, -5), Ok(quad(-2, 7))),
        (quad(-1, -1), quad(MIN, MIN), Ok(quad(MAX, MAX))),
        (quad(0, 0), quad(MIN, 0), Err(TooWide)),
        (quad(0, 0), quad(0, MIN), Err(TooWide)),
        (quad(MIN, 0), quad(1, 0), Err(TooWide)),
        (quad(0, MIN), quad(0, 1), Err(TooWide)),
    ] {
        assert_eq!(rt; field.sub(x, y), difference, "{x:?} and {y:?}");
    }
    for (x, negative) in [
        (quad(MAX, -3), Ok(quad(-MAX, 3))),
        (quad(MIN, 0), Err(TooWide)),
        (quad(0, MIN), Err(TooWide)),
    ] {
        assert_eq!(rt; field.neg(x), negative, "{x:?}");
    }
    Ok(())
}

#[test]
fn multiplies(rt: HostRuntime) -> Result<(), Fail> {
    const LOW: i128 = 1 << 62;
    const HALF: i128 = 1 << 63;
    const WHOLE: i128 = 1 << 64;
    let field = Field::make(2).ok_or("2 is square-free")?;
    for (x, y, product) in [
        (quad(1, 1), quad(1, 1), Ok(quad(3, 2))),
        (quad(3, 2), quad(3, -2), Ok(quad(1, 0))),
        (quad(MIN, MIN), quad(1, 0), Ok(quad(MIN, MIN))),
        (quad(MIN, 0), quad(-1, 0), Err(TooWide)),
        (quad(-WHOLE, 0), quad(HALF, 0), Ok(quad(MIN, 0))),
        (quad(WHOLE, 0), quad(HALF, 0), Err(TooWide)),
        (quad(0, WHOLE), quad(0, HALF), Err(TooWide)),
        (quad(0, HALF), quad(0, -HALF), Ok(quad(MIN, 0))),
        // 2·(b·d) alone is 2^127
        (quad(-HALF, HALF), quad(HALF, HALF), Err(TooWide)),
        // a·c + 2·(b·d) alone is 2^127
        (quad(HALF, HALF), quad(HALF, LOW), Err(TooWide)),
        // a·d + b·c alone is 2^127, and then 2^127 - 2^62
        (quad(WHOLE - 1, LOW), quad(2, HALF), Err(TooWide)),
        (
            quad(WHOLE - 1, LOW),
            quad(1, HALF),
            Ok(quad(LOW * WHOLE + (WHOLE - 1), MAX - (LOW - 1))),
        ),
    ] {
        assert_eq!(rt; field.mul(x, y), product, "{x:?} and {y:?}");
    }
    Ok(())
}

// around the ends of the numbers whose products are taken in 64 bits
#[test]
fn multiplies_small_numbers(rt: HostRuntime) -> Result<(), Fail> {
    const END: i128 = 1 << 53;
    let field = Field::make(997).ok_or("997 is square-free")?;
    for (x, y, product) in [
        (quad(2, 3), quad(5, -7), quad(-20927, 1)),
        (quad(-3, 0), quad(7, 0), quad(-21, 0)),
        (quad(-3, 0), quad(7, 2), quad(-21, -6)),
        (
            quad(-END, END - 1),
            quad(END - 1, -END),
            quad(
                -80967379137777459343212570902265856,
                162259276829213345377179500806145,
            ),
        ),
        (
            quad(END, END - 1),
            quad(1, -END),
            quad(
                -80886249499362852661516781897121792,
                -81129638414606672688589750403073,
            ),
        ),
        (
            quad(-END, 0),
            quad(END - 1, 0),
            quad(-81129638414606672688589750403072, 0),
        ),
        (
            quad(-END - 1, 0),
            quad(END, 0),
            quad(-81129638414606690702988259885056, 0),
        ),
        (
            quad(-END, -END),
            quad(-END, -END),
            quad(
                80967379137777468332397427133775872,
                162259276829213363391578010288128,
            ),
        ),
    ] {
        assert_eq!(rt; field.mul(x, y), Ok(product), "{x:?} and {y:?}");
    }
    Ok(())
}

#[test]
fn tells_signs(rt: HostRuntime) -> Result<(), Fail> {
    let field = Field::make(2).ok_or("2 is square-free")?;
    for (x, sign) in [
        (quad(0, 0), Sign::Zero),
        (quad(1, 0), Sign::Plus),
        (quad(-1, 0), Sign::Minus),
        (quad(0, 1), Sign::Plus),
        (quad(0, -1), Sign::Minus),
        (quad(665857, -470832), Sign::Plus),
        (quad(-665857, 470832), Sign::Minus),
        (quad(MAX, -MAX), Sign::Minus),
        (quad(MIN, MIN), Sign::Minus),
        (quad(MIN, MAX), Sign::Plus),
        (quad(MAX, MIN), Sign::Minus),
        (quad(MIN, 0), Sign::Minus),
        (quad(0, MIN), Sign::Minus),
    ] {
        assert_eq!(rt; field.sign(x), sign, "{x:?}");
    }
    Ok(())
}

#[test]
fn scales_and_conjugates(rt: HostRuntime) -> Result<(), Fail> {
    const HALF: i128 = 1 << 63;
    const WHOLE: i128 = 1 << 64;
    let field = Field::make(2).ok_or("2 is square-free")?;
    for (x, k, multiple) in [
        (quad(1, -2), 3, Ok(quad(3, -6))),
        (quad(MIN, MIN), 1, Ok(quad(MIN, MIN))),
        (quad(MIN, MAX), 0, Ok(quad(0, 0))),
        (quad(MIN, 0), -1, Err(TooWide)),
        (quad(0, MIN), -1, Err(TooWide)),
        (quad(MAX, MAX), -1, Ok(quad(-MAX, -MAX))),
        (quad(-HALF, -HALF), WHOLE, Ok(quad(MIN, MIN))),
        (quad(HALF, 0), WHOLE, Err(TooWide)),
        (quad(0, HALF), WHOLE, Err(TooWide)),
    ] {
        assert_eq!(rt; field.scale(x, k), multiple, "{x:?} times {k}");
    }
    for (x, conjugate) in [
        (quad(1, -2), Ok(quad(1, 2))),
        (quad(MIN, MAX), Ok(quad(MIN, -MAX))),
        (quad(0, MIN), Err(TooWide)),
    ] {
        assert_eq!(rt; field.conj(x), conjugate, "{x:?}");
    }
    for (x, norm) in [
        (quad(3, 2), Ok(1)),
        (quad(1, -1), Ok(-1)),
        (quad(0, HALF), Ok(MIN)),
        (quad(HALF, HALF), Ok(-HALF * HALF)),
        // 2·b² alone is above 2^127
        (quad(HALF, HALF + 1), Err(TooWide)),
        // a² alone is 2^127 or more
        (quad(MIN, 0), Err(TooWide)),
        (quad(WHOLE, HALF), Err(TooWide)),
        // -b alone is 2^127
        (quad(0, MIN), Err(TooWide)),
    ] {
        assert_eq!(rt; field.norm(x), norm, "{x:?}");
    }
    let field = Field::make(997).ok_or("997 is square-free")?;
    assert_eq!(rt; field.norm(quad(2, 3)), Ok(-8969));
    Ok(())
}

#[test]
fn finds_contents(rt: HostRuntime) {
    let none: [Quad; 0] = [];
    assert_eq!(rt; content(&none), 0);
    for (list, divisor) in [
        ([quad(0, 0), quad(0, 0)], 0),
        ([quad(0, 0), quad(6, -4)], 2),
        ([quad(0, -15), quad(10, 0)], 5),
        ([quad(3, 0), quad(0, 5)], 1),
        ([quad(MIN, 0), quad(0, MIN)], 1 << 127),
        ([quad(MIN, 0), quad(0, 12)], 4),
    ] {
        assert_eq!(rt; content(&list), divisor, "{list:?}");
    }
}

#[test]
fn reduces(rt: HostRuntime) {
    let mut nums = [quad(MIN, 12), quad(0, -8)];
    let mut den = 4;
    reduce(&mut nums, &mut den);
    assert_eq!(rt; nums, [quad(-(1 << 125), 3), quad(0, -2)]);
    assert_eq!(rt; den, 1);
    let mut nums = [quad(MIN, MIN), quad(0, 0)];
    let mut den = 3 << 125;
    reduce(&mut nums, &mut den);
    assert_eq!(rt; nums, [quad(-4, -4), quad(0, 0)]);
    assert_eq!(rt; den, 3);
    let mut nums = [quad(0, 0)];
    let mut den = MAX;
    reduce(&mut nums, &mut den);
    assert_eq!(rt; nums, [quad(0, 0)]);
    assert_eq!(rt; den, 1);
    let mut nums = [quad(6, 0), quad(0, -10)];
    let mut den = 15;
    reduce(&mut nums, &mut den);
    assert_eq!(rt; nums, [quad(6, 0), quad(0, -10)]);
    assert_eq!(rt; den, 15);
}

#[test]
fn takes_contents_out(rt: HostRuntime) {
    for (list, primitive) in [
        ([quad(6, -4), quad(0, 10)], [quad(3, -2), quad(0, 5)]),
        ([quad(-7, 0), quad(3, 0)], [quad(-7, 0), quad(3, 0)]),
        ([quad(0, 0), quad(0, -5)], [quad(0, 0), quad(0, -1)]),
        ([quad(0, 0), quad(0, 0)], [quad(0, 0), quad(0, 0)]),
        ([quad(MIN, 0), quad(0, MIN)], [quad(-1, 0), quad(0, -1)]),
        ([quad(MAX, 0), quad(0, -MAX)], [quad(1, 0), quad(0, -1)]),
    ] {
        let mut numbers = list;
        primitive_part(&mut numbers);
        assert_eq!(rt; numbers, primitive, "{list:?}");
    }
}
