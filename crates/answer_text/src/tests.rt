//! The numbers of all statuses.

use super::{NoCause, Place, Status, status_number};
use quad_field::Formula;
use std::test::Fail;
use surface_text::Point;

#[test]
fn each_status_has_its_number(rt: HostRuntime) -> Result<(), Fail> {
    let point = Point {
        xn: -2,
        xd: 13,
        yn: 5,
        yd: 4,
    };
    let wide = Status::TooWide {
        formula: Formula::F12,
        place: Place::Flips { flips: 7, edge: 30 },
    };
    let rows: [(Status, u8); 11] = [
        (Status::Done, 0),
        (Status::Words, 2),
        (Status::File { cause: 16, line: 3 }, 3),
        (Status::NotStrict { edge: 2 }, 4),
        (Status::FlipsEnded { point }, 5),
        (wide, 6),
        (Status::LimitPassed { limit: 20 }, 7),
        (Status::ReadFault, 8),
        (Status::WriteFault, 9),
        (Status::Memory, 10),
        (Status::No(NoCause::Wall { place: 4 }), 11),
    ];
    for (status, number) in &rows {
        assert_eq!(rt; status_number(status), *number);
    }
    Ok(())
}
