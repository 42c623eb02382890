//! Small matrices over the field of bytes, their inverses and their kernels.
//!
//! A matrix has at most 8 rows and 8 columns, numbered from 0; an entry is a byte. The *kernel
//! list* of a matrix without an inverse is sent to zero by it, is zero behind the first dependent
//! column, and its first entry that isn't zero is 1.
//!
//! `invert` answers a `Matrix`, or `NoInverse` with the kernel list or for want of memory. `kernel`
//! answers None where only zero is sent to zero.
//!
//! ```text
//! let m = Matrix::new(2, 2, entries);   // 1 1 / 1 2, row by row
//! let inverse = invert(alloc, &m)?;
//! ```
//!
//! *Proved.* `invert` answers a two-sided inverse, or the kernel list, exactly one of the two;
//! `kernel` answers the kernel list, or that only zero is sent to zero; the kernel is the unique
//! list that is zero after the first dependent column and begins with 1.
//!
//! *Neither.* Speed.
#![tactic(auto)]

ghost use Rattle.std.specs.Prelude.{◌≡◌, ℕ, ◌+◌, ◌*◌, ◌<◌, ◌≤◌, ⊤, length, slice_index};
ghost use Rattle.std.specs.Prelude.{IfOk, IfErr, replicate, set};
ghost use Rattle.mf_matrix.specs.Tables.{IsInverse, FindsKernel};
ghost use Rattle.mf_matrix.specs.Matrix.{IsGrid, entry};
ghost use Rattle.mf_matrix.specs.NoInverses.{IsNoInverse};

mod elimination;

use elimination::{equations_of, kernel_of, right_side, solve};
use std::alloc::{AllocError, Global};
use std::marker::Model;

/// The greatest number of rows, and of columns, of a matrix.
pub const MAX_SIDE: usize = 8;

// Room for the entries of the greatest matrix.
const ROOM: usize = MAX_SIDE * MAX_SIDE;

/// A matrix of bytes with at most eight rows and eight columns. It takes no memory.
#[derive(Drop)]
pub struct Matrix {
    rows: u32,
    columns: u32,
    // The entries row by row, and room behind them.
    room: [u8; ROOM],
}

impl Model for Matrix {
    ghost use Rattle.std.specs.Prelude.{◌*◌, take};
    ghost use Rattle.mf_matrix.specs.Matrix.{Grid, IsGrid};

    ghost Value = { Grid };

    ghost view = { λ m. record {
      rows = m.rows;
      columns = m.columns;
      entries = take (m.rows * m.columns) m.room;
    } };

    ghost invariant = { λ m. IsGrid (record {
      rows = m.rows;
      columns = m.columns;
      entries = take (m.rows * m.columns) m.room;
    }) };
}

/// The kernel list of a matrix that has no inverse: the matrix sends it to zero, it is zero after
/// the first column that depends on the columns before it, and its first entry that is not zero is
/// 1.
#[derive(Drop)]
pub struct KernelList {
    entries: Vec<u8>,
}

impl Model for KernelList {
    ghost use Rattle.std.specs.Prelude.{List, ℕ};

    ghost Value = { List ℕ };

    ghost view = { λ kernel. kernel.entries.items };
}

impl KernelList {
    /// The entries, one for each column.
    pub fn as_slice(&self) -> &[u8]
        ensures { result.now ≡ self.now }
    {
        self.entries.as_slice()
    }
}

/// What is answered in place of an inverse.
#[derive(Drop)]
pub enum NoInverse {
    /// The matrix has no inverse, and this is its kernel list.
    Kernel(KernelList),
    /// Memory ran out.
    Memory,
}

impl Matrix {
    /// The matrix of these entries, row by row.
    pub fn new(rows: u32, columns: u32, entries: Vec<u8>) -> Matrix
        requires few_rows { rows ≤ MAX_SIDE }
        requires few_columns { columns ≤ MAX_SIDE }
        requires filled { length entries.items ≡ rows * columns }
        ensures made { result ≡ record { rows = rows; columns = columns; entries = entries.items } }
        ensures kept { IsGrid result }
    {
        let mut room = zeros();
        room[..entries.len()].copy_from_slice(&entries);
        Matrix {
            rows,
            columns,
            room,
        }
    }

    /// The matrix of zeros.
    pub fn zero(rows: u32, columns: u32) -> Matrix
        requires few_rows { rows ≤ MAX_SIDE }
        requires few_columns { columns ≤ MAX_SIDE }
        ensures made { result ≡ record {
          rows = rows;
          columns = columns;
          entries = replicate (rows * columns) 0;
        } }
        ensures kept { IsGrid result }
    {
        let room = zeros();
        Matrix {
            rows,
            columns,
            room,
        }
    }

    /// The entry in this row and column.
    pub fn at(&self, row: u32, column: u32) -> u8
        requires row_in { row < self.now.rows }
        requires column_in { column < self.now.columns }
        ensures { result ≡ entry self.now row column }
    {
        self.room[(row * self.columns + column) as usize]
    }

    /// Puts another entry into this row and column.
    pub fn put(&mut self, row: u32, column: u32, value: u8)
        requires row_in { row < self.old.rows }
        requires column_in { column < self.old.columns }
        ensures changed { self.new ≡ record {
          rows = self.old.rows;
          columns = self.old.columns;
          entries = set self.old.entries (row * self.old.columns + column) value;
        } }
        ensures kept { IsGrid self.new }
    {
        let index = row * self.columns + column;
        self.room[index as usize] = value;
    }
}

// Room for the entries of a matrix.
fn zeros() -> [u8; ROOM]
    ensures { result ≡ replicate ROOM 0 }
{
    [0; ROOM]
}

impl From<AllocError> for NoInverse {
    ghost use Rattle.mf_matrix.specs.declared.NoInverse.TheVariants.{Memory};

    ghost from_gives = { λ _ reason. reason ≡ Memory };

    fn from(_error: AllocError) -> NoInverse {
        NoInverse::Memory
    }
}

/// The one kernel list of a square matrix, or None where the matrix sends only the zero list to
/// zero. Memory is taken for a kernel list alone.
pub fn kernel(alloc: Global, matrix: &Matrix) -> Result<Option<KernelList>, AllocError>
    requires { matrix.now.rows ≡ matrix.now.columns }
    ensures { IfOk result (FindsKernel (matrix.now.columns) (entry matrix.now)) }
{
    let size = matrix.columns as usize;
    let mut equations = equations_of(matrix);
    match solve(&mut equations, size, size) {
        None => Ok(None),
        Some(column) => Ok(Some(kernel_of(alloc, &equations, size, column)?)),
    }
}

/// The inverse of a square matrix, or the one kernel list of a matrix that has none. `Memory` says
/// that memory ran out, and nothing of the matrix.
pub fn invert(alloc: Global, matrix: &Matrix) -> Result<Matrix, NoInverse>
    requires { matrix.now.rows ≡ matrix.now.columns }
    ensures size { IfOk result (λ b. (b.rows ≡ matrix.now.rows)
        × (b.columns ≡ matrix.now.columns)) }
    ensures inverse { IfOk result (λ b.
        IsInverse (matrix.now.columns) (entry matrix.now) (entry b)) }
    ensures kernel { IfErr result (IsNoInverse (matrix.now.columns) (entry matrix.now)) }
{
    let size = matrix.columns as usize;
    let mut equations = equations_of(matrix);
    match solve(&mut equations, size, 2 * size) {
        None => Ok(right_side(&equations, matrix.columns)),
        Some(column) => Err(NoInverse::Kernel(kernel_of(alloc, &equations, size, column)?)),
    }
}
