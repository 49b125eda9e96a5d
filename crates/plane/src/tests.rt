//! Tables of words with what they are read as, and of numbers with their text.

use super::{
    Mat2, NaturalWord, QuadWord, Vec2, VectorWord, WholeWord, det, mat_equal, mat_identity,
    mat_inverse, mat_mul, put_quad, put_vector, put_whole, read_natural, read_quad, read_vector,
    read_whole,
};
use quad_field::{Field, Formula, Quad, Sign};
use std::test::Fail;

const MAX: i128 = i128::MAX;

const MIN: i128 = i128::MIN;

fn quad(a: i128, b: i128) -> Quad {
    Quad { a, b }
}

#[test]
fn reads_the_one_spelling_of_a_natural_number(rt: HostRuntime) {
    for (word, read) in [
        ("0", NaturalWord::Value(0)),
        ("7", NaturalWord::Value(7)),
        ("10", NaturalWord::Value(10)),
        (
            "340282366920938463463374607431768211455",
            NaturalWord::Value(u128::MAX),
        ),
        (
            "340282366920938463463374607431768211456",
            NaturalWord::Large,
        ),
        (
            "1000000000000000000000000000000000000000",
            NaturalWord::Large,
        ),
        (
            "1000000000000000000000000000000000000000x",
            NaturalWord::Not,
        ),
        ("", NaturalWord::Not),
        ("00", NaturalWord::Not),
        ("01", NaturalWord::Not),
        ("+1", NaturalWord::Not),
        ("-1", NaturalWord::Not),
        ("1 ", NaturalWord::Not),
        ("1:", NaturalWord::Not),
        ("/1", NaturalWord::Not),
    ] {
        assert_eq!(rt; read_natural(word.as_bytes()), read, "at {word}");
    }
}

#[test]
fn reads_k_integers(rt: HostRuntime) {
    for (word, x) in [
        ("0", quad(0, 0)),
        ("1", quad(1, 0)),
        ("-1", quad(-1, 0)),
        ("10", quad(10, 0)),
        ("-10", quad(-10, 0)),
        ("0+1r", quad(0, 1)),
        ("0-1r", quad(0, -1)),
        ("-5+3r", quad(-5, 3)),
        ("170141183460469231731687303715884105727+1r", quad(MAX, 1)),
        (
            "-170141183460469231731687303715884105728-20r",
            quad(MIN, -20),
        ),
        ("1+170141183460469231731687303715884105727r", quad(1, MAX)),
        ("0-170141183460469231731687303715884105728r", quad(0, MIN)),
    ] {
        assert_eq!(rt; read_quad(word.as_bytes()), QuadWord::Value(x), "at {word}");
    }
}

#[test]
fn reads_and_writes_whole_numbers(rt: HostRuntime) -> Result<(), Fail> {
    for (word, n) in [
        ("0", 0),
        ("-1", -1),
        ("9007199254740993", 9007199254740993),
        ("170141183460469231731687303715884105727", MAX),
        ("-170141183460469231731687303715884105728", MIN),
    ] {
        assert_eq!(rt;
            read_whole(word.as_bytes()),
            WholeWord::Value(n),
            "at {word}"
        );
        let mut out = Vec::new(rt.alloc());
        put_whole(rt.alloc(), &mut out, n)?;
        assert_eq!(rt; out.as_slice(), word.as_bytes(), "at {n}");
    }
    for word in [
        "170141183460469231731687303715884105728",
        "-170141183460469231731687303715884105729",
    ] {
        assert_eq!(rt; read_whole(word.as_bytes()), WholeWord::Large, "at {word}");
    }
    for word in ["", "-", "-0", "00", "01", "+1", "1+1r", " 1", "1 "] {
        assert_eq!(rt; read_whole(word.as_bytes()), WholeWord::Not, "at {word}");
    }
    Ok(())
}

#[test]
fn tells_large_k_integers(rt: HostRuntime) {
    for word in [
        "170141183460469231731687303715884105728",
        "-170141183460469231731687303715884105729",
        "0+170141183460469231731687303715884105728r",
        "0-170141183460469231731687303715884105729r",
        "1234567890123456789012345678901234567890",
        "1234567890123456789012345678901234567890+1r",
        "1-1234567890123456789012345678901234567890r",
    ] {
        assert_eq!(rt; read_quad(word.as_bytes()), QuadWord::Large, "at {word}");
    }
}

#[test]
fn refuses_other_words(rt: HostRuntime) {
    for word in [
        "",
        "-",
        "-0",
        "00",
        "01",
        "+1",
        "1r",
        "r",
        "0r",
        "1+0r",
        "1-0r",
        "1+-1r",
        "1+1",
        "1+r",
        "1++1r",
        "1+1r1",
        "1+1r+1r",
        " 1",
        "1 ",
        "1+01r",
        "--1",
        "-0+1r",
        "+1r",
        "1,1",
        "1+1R",
        "1\u{e9}",
        "1234567890123456789012345678901234567890+0r",
    ] {
        assert_eq!(rt; read_quad(word.as_bytes()), QuadWord::Not, "at {word}");
    }
    assert_eq!(rt; read_quad(&[128]), QuadWord::Not);
    assert_eq!(rt; read_quad(&[b'1', 128]), QuadWord::Not);
}

#[test]
fn reads_ten_thousand_digits(rt: HostRuntime) -> Result<(), Fail> {
    let mut word = Vec::new(rt.alloc());
    for _ in 0..10000 {
        word.push(b'9')?;
    }
    assert_eq!(rt; read_natural(&word), NaturalWord::Large);
    assert_eq!(rt; read_quad(&word), QuadWord::Large);
    word.push(b'+')?;
    assert_eq!(rt; read_quad(&word), QuadWord::Not);
    Ok(())
}

#[test]
fn reads_vectors(rt: HostRuntime) {
    let large = "1,170141183460469231731687303715884105728";
    for (word, read) in [
        (
            "1,0",
            VectorWord::Value(Vec2 {
                s: quad(1, 0),
                t: quad(0, 0),
            }),
        ),
        (
            "0+1r,-2-3r",
            VectorWord::Value(Vec2 {
                s: quad(0, 1),
                t: quad(-2, -3),
            }),
        ),
        (large, VectorWord::Large),
        ("1", VectorWord::Not),
        ("1,", VectorWord::Not),
        (",1", VectorWord::Not),
        ("1,2,3", VectorWord::Not),
        ("1, 2", VectorWord::Not),
        ("1;2", VectorWord::Not),
    ] {
        assert_eq!(rt; read_vector(word.as_bytes()), read, "at {word}");
    }
}

#[test]
fn writes_behind_what_stands(rt: HostRuntime) -> Result<(), Fail> {
    for (x, text) in [
        (quad(0, 0), "x 0"),
        (quad(-10, 0), "x -10"),
        (quad(0, 1), "x 0+1r"),
        (quad(0, -1), "x 0-1r"),
        (quad(-5, 30), "x -5+30r"),
        (
            quad(MIN, MIN),
            "x -170141183460469231731687303715884105728-170141183460469231731687303715884105728r",
        ),
        (
            quad(MAX, MAX),
            "x 170141183460469231731687303715884105727+170141183460469231731687303715884105727r",
        ),
    ] {
        let mut out = Vec::from_slice(rt.alloc(), b"x ")?;
        put_quad(rt.alloc(), &mut out, x)?;
        assert_eq!(rt; out.as_slice(), text.as_bytes());
    }
    let mut out = Vec::from_slice(rt.alloc(), b"v ")?;
    let v = Vec2 {
        s: quad(0, 1),
        t: quad(-2, -3),
    };
    put_vector(rt.alloc(), &mut out, &v)?;
    assert_eq!(rt; out.as_slice(), b"v 0+1r,-2-3r".as_slice());
    Ok(())
}

/// Whether the matrix of these numbers over a denominator above zero has these entries and this denominator.
fn is_reduced_to(n: [Quad; 4], den: i128, entries: [Quad; 4], denominator: i128) -> bool {
    if den < 1 {
        return false;
    }
    let m = Mat2::reduced(n, den);
    *m.entries() == entries && m.denominator() == denominator
}

#[test]
fn takes_matrices_to_lowest_terms(rt: HostRuntime) {
    let one = quad(1, 0);
    let zero = quad(0, 0);
    let two = quad(2, 0);
    let halves = [quad(1, 1), zero, zero, one];
    for (n, den, entries, denominator) in [
        ([one, zero, zero, one], 1, [one, zero, zero, one], 1),
        ([two, zero, zero, two], 2, [one, zero, zero, one], 1),
        ([quad(2, 2), zero, zero, two], 4, halves, 2),
        (
            [quad(6, 0), quad(0, -3), quad(9, 12), zero],
            15,
            [two, quad(0, -1), quad(3, 4), zero],
            5,
        ),
        ([zero, zero, zero, zero], 7, [zero, zero, zero, zero], 1),
        (
            [quad(MIN, 0), zero, zero, zero],
            MAX,
            [quad(MIN, 0), zero, zero, zero],
            MAX,
        ),
    ] {
        assert!(rt; is_reduced_to(n, den, entries, denominator));
    }
    let identity = mat_identity();
    assert!(rt; mat_equal(&Mat2::reduced([two, zero, zero, two], 2), &identity));
    assert!(rt; !mat_equal(&Mat2::reduced([one, zero, zero, one], 2), &identity));
    assert!(rt; !mat_equal(&Mat2::reduced([one, quad(0, 1), zero, one], 1), &identity));
}

/// Numbers of a matrix by rows over a denominator.
type Numbers = ([Quad; 4], i128);

/// What a product or an inverse is to be.
#[derive(Clone, Copy, PartialEq)]
enum Answer {
    Is([Quad; 4], i128),
    Wide(Formula),
    Undefined,
}

/// The product of two matrices with denominators above zero.
fn product_is(field: &Field, a: Numbers, b: Numbers) -> Answer {
    if a.1 < 1 || b.1 < 1 {
        return Answer::Undefined;
    }
    match mat_mul(field, &Mat2::reduced(a.0, a.1), &Mat2::reduced(b.0, b.1)) {
        Ok(c) => Answer::Is(*c.entries(), c.denominator()),
        Err(wide) => Answer::Wide(wide.formula),
    }
}

/// The inverse of a matrix with a denominator above zero and a determinant that fits and isn't zero.
fn inverse_is(field: &Field, a: Numbers) -> Answer {
    if a.1 < 1 {
        return Answer::Undefined;
    }
    let a = Mat2::reduced(a.0, a.1);
    let n = a.entries();
    let first = Vec2 { s: n[0], t: n[1] };
    let second = Vec2 { s: n[2], t: n[3] };
    match det(field, &first, &second) {
        Ok(determinant) => {
            if field.sign(determinant) == Sign::Zero {
                return Answer::Undefined;
            }
            match mat_inverse(field, &a) {
                Ok(c) => Answer::Is(*c.entries(), c.denominator()),
                Err(wide) => Answer::Wide(wide.formula),
            }
        }
        Err(_) => Answer::Undefined,
    }
}

#[test]
fn multiplies_matrices(rt: HostRuntime) -> Result<(), Fail> {
    let field = Field::make(2).ok_or("2 is square-free")?;
    let zero = quad(0, 0);
    let one = quad(1, 0);
    let root = quad(0, 1);
    let shear = [one, one, zero, one];
    let turn = [zero, quad(-1, 0), one, zero];
    for (a, b, product) in [
        (
            (shear, 1),
            (turn, 1),
            Answer::Is([one, quad(-1, 0), one, zero], 1),
        ),
        (
            (turn, 1),
            (shear, 1),
            Answer::Is([zero, quad(-1, 0), one, one], 1),
        ),
        (
            ([root, one, zero, root], 2),
            ([root, zero, one, root], 3),
            Answer::Is([quad(3, 0), root, root, quad(2, 0)], 6),
        ),
        (
            ([root, zero, zero, root], 2),
            ([root, zero, zero, root], 1),
            Answer::Is([one, zero, zero, one], 1),
        ),
        (
            ([quad(MIN, 0), zero, zero, one], 1),
            ([one, zero, zero, one], 1),
            Answer::Is([quad(MIN, 0), zero, zero, one], 1),
        ),
        (
            ([quad(MIN, 0), zero, zero, one], 1),
            ([quad(-1, 0), zero, zero, one], 1),
            Answer::Wide(Formula::F10),
        ),
        (
            ([one, zero, zero, one], MAX),
            ([one, zero, zero, one], 2),
            Answer::Wide(Formula::F10),
        ),
    ] {
        assert!(rt; product_is(&field, a, b) == product);
    }
    Ok(())
}

#[test]
fn inverts_matrices(rt: HostRuntime) -> Result<(), Fail> {
    let field = Field::make(2).ok_or("2 is square-free")?;
    let zero = quad(0, 0);
    let one = quad(1, 0);
    let root = quad(0, 1);
    for (a, inverse) in [
        (
            ([one, one, zero, one], 1),
            Answer::Is([one, quad(-1, 0), zero, one], 1),
        ),
        (
            ([quad(3, 0), one, zero, quad(3, 0)], 2),
            Answer::Is([quad(6, 0), quad(-2, 0), zero, quad(6, 0)], 9),
        ),
        (
            ([root, one, zero, one], 1),
            Answer::Is([root, quad(0, -1), zero, quad(2, 0)], 2),
        ),
        (
            ([quad(1, 1), zero, zero, one], 1),
            Answer::Is([quad(-1, 1), zero, zero, one], 1),
        ),
        (
            ([root, one, one, one], 1),
            Answer::Is([quad(1, 1), quad(-1, -1), quad(-1, -1), quad(2, 1)], 1),
        ),
        (
            ([quad(1, 1), zero, zero, one], 3),
            Answer::Is([quad(-3, 3), zero, zero, quad(3, 0)], 1),
        ),
        (
            ([one, zero, zero, quad(MIN, 0)], 1),
            Answer::Wide(Formula::F11),
        ),
        (
            ([one, zero, zero, quad(0, MIN)], 1),
            Answer::Wide(Formula::F11),
        ),
        (
            ([quad(0, 1 << 63), zero, zero, one], 1),
            Answer::Wide(Formula::F11),
        ),
    ] {
        assert!(rt; inverse_is(&field, a) == inverse);
    }
    Ok(())
}
