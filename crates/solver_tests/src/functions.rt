// Functions by their pieces: partitions, values, how many there may be.
use crate::made::{axis, domain_of, line_of, piece};
use crate::rows::{count_at, number_at};
use crate::shapes::value;
use ivp_domain::{BoxN, Domain, Point};
use ivp_func::{Func, FuncFault, Piece, are_pieces_of, is_box_of, is_piece_of, tests_law};
use std::alloc::Global;
use std::process::Abort;

/// The pieces of some lines: of each its low and high place, base and slope.
fn pieces(rt: &impl Abort, alloc: Global, rows: &str) -> Vec<Piece> {
    let mut pieces = Vec::new(alloc);
    for row in rows.lines() {
        let low = count_at(rt, row, 0);
        let high = count_at(rt, row, 1);
        let made = piece(low, high, number_at(rt, row, 2), number_at(rt, row, 3));
        pieces.push(made).expect(rt, "memory");
    }
    pieces
}

/// The function that pieces make which may be in one.
fn made(rt: &impl Abort, alloc: Global, domain: &Domain, pieces: Vec<Piece>) -> Func {
    assert!(rt; are_pieces_of(domain, &pieces), "pieces that fit");
    Func::make(alloc, domain, pieces).expect(rt, "a function")
}

fn at(place: u32) -> Point {
    Point {
        at: [place, 0, 0, 0],
    }
}

/// The fault of these pieces over a line.
fn fault(rt: &impl Abort, alloc: Global, points: u32, pieces: Vec<Piece>) -> Option<FuncFault> {
    let domain = line_of(rt, points);
    assert!(rt; are_pieces_of(&domain, &pieces), "pieces that fit");
    Func::make(alloc, &domain, pieces).err()
}

#[test]
fn pieces_of_a_line(rt: HostRuntime) {
    let domain = line_of(&rt, 3);
    let row = "0 2 -100000000000000 100000\n0 3 0 0\n2 1 0 0\n0 2 100000000000001 0\n0 2 0 -100001";
    for (place, piece) in pieces(&rt, rt.alloc(), row).iter().enumerate() {
        assert!(rt; is_piece_of(&domain, piece) == (place == 0), "{place}");
    }
    let mut across = piece(0, 2, 0, 0);
    across.slope[1] = 1;
    assert!(rt; !is_piece_of(&domain, &across));
    tests_law();
}

/// The pieces of these lines don't make a function of three points, since this place lies in so many of them.
fn misses(rt: &impl Abort, alloc: Global, rows: &str, place: u32, count: u32) {
    let fault = fault(rt, alloc, 3, pieces(rt, alloc, rows));
    let point = at(place);
    assert!(rt;
        fault == Some(FuncFault::NotPartition { point, count }),
        "{rows}"
    );
}

#[test]
fn no_partition(rt: HostRuntime) {
    misses(&rt, rt.alloc(), "0 1 0 0\n1 2 0 0", 1, 2);
    misses(&rt, rt.alloc(), "0 0 0 0\n2 2 0 0", 1, 0);
    misses(&rt, rt.alloc(), "0 0 0 0\n1 1 0 0", 2, 0);
    misses(&rt, rt.alloc(), "1 1 0 0\n1 1 0 0\n0 2 0 0", 1, 3);
    let none = FuncFault::NotPartition {
        point: at(0),
        count: 0,
    };
    let found = fault(&rt, rt.alloc(), 2, Vec::new(rt.alloc()));
    assert!(rt; found == Some(none));
}

/// The pieces of these lines have this value, which is out of range, at the last of three points.
fn has_out(rt: &impl Abort, alloc: Global, rows: &str, value: i64) {
    let fault = fault(rt, alloc, 3, pieces(rt, alloc, rows));
    let point = at(2);
    assert!(rt;
        fault == Some(FuncFault::ValueOut { point, value }),
        "{rows}"
    );
}

#[test]
fn values_out(rt: HostRuntime) {
    has_out(&rt, rt.alloc(), "0 0 100000 0\n1 2 99999 1", 100_001);
    has_out(&rt, rt.alloc(), "0 2 1 -1", -1);
    let within = pieces(&rt, rt.alloc(), "0 2 100000 -50000");
    assert!(rt; fault(&rt, rt.alloc(), 3, within).is_none());
}

/// As many pieces of one point as the line has points.
fn points_apart(rt: &impl Abort, alloc: Global, count: u32) -> Option<FuncFault> {
    let mut pieces = Vec::new(alloc);
    for place in 0..count {
        pieces.push(piece(place, place, 0, 0)).expect(rt, "memory");
    }
    fault(rt, alloc, count, pieces)
}

#[test]
fn most_pieces(rt: HostRuntime) {
    assert!(rt; points_apart(&rt, rt.alloc(), 4096) == None);
    assert!(rt; points_apart(&rt, rt.alloc(), 4097) == Some(FuncFault::TooMany));
}

// The peak of a heading on a circle of 360 places, which falls and rises by two slopes on either side.
const HEADING: &str = "0 1 90000 -10000
2 4 106666 -26666
5 179 0 0
180 353 0 0
354 356 -9439762 26666
357 358 -3490000 10000
359 359 3690000 -10000";

// Places of the circle and the values there.
const VALUES: &str = "0 90000
1 80000
4 2
200 0
354 2
359 100000";

/// A function of these pieces, by its values.
fn is_heading(rt: &impl Abort, func: &Func) {
    assert!(rt; 4 < func.len());
    assert!(rt; func.len() == 7 && func.top() == 100_000);
    assert!(rt; func.piece(4) == piece(354, 356, -9_439_762, 26_666));
    for row in VALUES.lines() {
        let told = value(func, count_at(rt, row, 0));
        assert!(rt; told == Some(number_at(rt, row, 1)), "{row}");
    }
    assert!(rt; value(func, 360).is_none());
}

#[test]
fn peak_of_a_heading(rt: HostRuntime) {
    let domain = line_of(&rt, 360);
    let func = made(&rt, rt.alloc(), &domain, pieces(&rt, rt.alloc(), HEADING));
    is_heading(&rt, &func);
    assert!(rt; func.domain() == domain);
    let other = func.share().expect(&rt, "memory");
    drop(func);
    is_heading(&rt, &other);
}

/// Eight pieces of 45 points each.
fn eighths(rt: &impl Abort, alloc: Global) -> Func {
    let domain = line_of(rt, 360);
    let mut pieces = Vec::new(alloc);
    for number in 0..8 {
        pieces
            .push(piece(number * 45, number * 45 + 44, 0, 0))
            .expect(rt, "memory");
    }
    made(rt, alloc, &domain, pieces)
}

/// 180 cells of two points each, one of which lies in two pieces; and an area of more cells than are looked at.
fn has_areas(rt: &impl Abort, func: &Func) {
    let area = piece(44, 45, 0, 0).area;
    assert!(rt; is_box_of(&func.domain(), &area));
    assert!(rt; func.next_meet(&area, 0) == Some(0));
    assert!(rt; func.next_meet(&area, 1) == Some(1));
    assert!(rt; func.next_meet(&area, 2) == None);
    assert!(rt; func.cells() == 180);
    assert!(rt; 22 < func.cells());
    assert!(rt; func.cell_box(22) == area);
    assert!(rt; func.cell(22) == [0, 1].as_slice());
    let most = piece(1, 359, 0, 0).area;
    assert!(rt; is_box_of(&func.domain(), &most));
    assert!(rt; func.next_meet(&most, 3) == Some(3));
    assert!(rt; func.next_meet(&most, 8) == None);
}

#[test]
fn pieces_of_an_area(rt: HostRuntime) {
    has_areas(&rt, &eighths(&rt, rt.alloc()));
}

/// 24 pieces of 15 places of the first axis, each with all places of the second.
fn hours(rt: &impl Abort, alloc: Global) -> Func {
    let domain = domain_of(rt, &[axis(rt, b"a", 1000, 360), axis(rt, b"b", 1000, 4)]);
    let mut pieces = Vec::new(alloc);
    for number in 0..24 {
        let mut hour = piece(number * 15, number * 15 + 14, 0, 0);
        hour.area.high[1] = 3;
        pieces.push(hour).expect(rt, "memory");
    }
    made(rt, alloc, &domain, pieces)
}

/// 16 runs of 23 places by 4 of one place: the sixth cell has the second place of the second axis.
fn has_cells(rt: &impl Abort, func: &Func) {
    assert!(rt; func.cells() == 64);
    assert!(rt; 5 < func.cells());
    let area = func.cell_box(5);
    let expected = BoxN {
        low: [23, 1, 0, 0],
        high: [45, 1, 0, 0],
    };
    assert!(rt; area == expected);
    assert!(rt; func.cell(5) == [1, 2, 3].as_slice());
    assert!(rt; is_box_of(&func.domain(), &area));
    assert!(rt; func.next_meet(&area, 2) == Some(2));
    assert!(rt; func.next_meet(&area, 4) == None);
}

#[test]
fn pieces_across_an_axis(rt: HostRuntime) {
    has_cells(&rt, &hours(&rt, rt.alloc()));
}
