//! The text of a grid: a line for each level with a cell for each role, and a last line that counts what passes.
ghost use Rattle.std.specs.Prelude.{Some};
ghost use Rattle.grid.specs.Text.{cell_text, row_text, grid_text};

use crate::answer::{Grid, SIDE};
use std::fmt;

impl fmt::Display for Grid {
    ghost output = { λ grid. Some (grid_text grid) };

    fn fmt<W: fmt::Write>(&self, f: &mut fmt::Formatter<W>) -> fmt::Result {
        for row in &self.rows {
            write!(f, "{}", Row(*row))?;
        }
        writeln!(f, "{} of 256 pass", self.passing)
    }
}

// A level's answers, by role.
#[derive(Clone, Copy)]
struct Row([u8; SIDE]);

impl fmt::Display for Row {
    ghost output = { λ row. Some (row_text row.0) };

    fn fmt<W: fmt::Write>(&self, f: &mut fmt::Formatter<W>) -> fmt::Result {
        write!(f, "{}", Cell(self.0[0]))?;
        for answer in &self.0[1..] {
            write!(f, " {}", Cell(*answer))?;
        }
        writeln!(f)
    }
}

// One answer.
#[derive(Clone, Copy)]
struct Cell(u8);

impl fmt::Display for Cell {
    ghost output = { λ cell. Some (cell_text cell.0) };

    fn fmt<W: fmt::Write>(&self, f: &mut fmt::Formatter<W>) -> fmt::Result {
        match self.0 {
            0 => write!(f, "."),
            answer => write!(f, "{answer}"),
        }
    }
}
