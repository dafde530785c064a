use history_model::{Act, Record};
use vw_cell::{Ball, Boxed, Cell};

pub fn cell(x: u16, y: u16, z: u16) -> Cell {
    Cell { x, y, z }
}

pub fn boxed(at: Cell, size: Cell) -> Boxed {
    Boxed { at, size }
}

pub fn ball(centre: Cell, radius: u16) -> Ball {
    Ball { centre, radius }
}

pub fn record(session: u16, line: u32, act: Act) -> Record {
    Record { session, line, act }
}

/// A VOX file of 64 bytes, with one model of one cell.
pub const ONE: [u8; 64] = *b"VOX \x96\0\0\0MAIN\0\0\0\0\x2c\0\0\0\
    SIZE\x0c\0\0\0\0\0\0\0\x01\0\0\0\x01\0\0\0\x01\0\0\0\
    XYZI\x08\0\0\0\0\0\0\0\x01\0\0\0\0\0\0\x01";
