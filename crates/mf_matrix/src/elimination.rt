//! Elimination. To invert a matrix a is to solve a x = y for x, whatever y is. Each equation of the
//! system has its coefficients of x first, and behind them those of y. Steps that keep the
//! solutions solve it for one unknown after the other.
ghost use Rattle.std.specs.Prelude.{◌≡◌, ◌≢◌, ℕ, ◌+◌, ◌*◌, ◌<◌, ◌≤◌, ◌⊎◌, ◌++◌};
ghost use Rattle.std.specs.Prelude.{length, slice_index, bit_xor, OnOk, IfOk, IfSome, IfNone};
ghost use Rattle.std.specs.Bool.{OnTrue, OnFalse};
ghost use Rattle.mf_code.specs.Field.{times};
ghost use Rattle.mf_code.specs.Rows.{list_of};
ghost use Rattle.mf_matrix.specs.Tables.{IsTable};
ghost use Rattle.mf_matrix.specs.Matrix.{IsGrid, entry};
ghost use Rattle.mf_matrix.specs.Elimination.{coefficient, SameSolutions, IsSolvedBelow, AddsTimes};
ghost use Rattle.mf_matrix.specs.Elimination.{Scales, IsSystemOf, IsStuckAt, EndsAt};
ghost use Rattle.mf_matrix.specs.Elimination.{IsLeading, shown_at};

use crate::{KernelList, MAX_SIDE, Matrix};
use mf_field::{add, inv, mul};
use std::alloc::{AllocError, Global};

/// The coefficients of one equation, those of x from index 0 on, and those of y after them.
pub type Equation = [u8; MAX_UNKNOWNS];

/// As many equations as the greatest matrix has rows.
pub type Equations = [Equation; MAX_SIDE];

/// An equation has a coefficient for each x and for each y.
const MAX_UNKNOWNS: usize = 2 * MAX_SIDE;

/// The equation with a multiple of another one added, in its first coefficients.
fn plus_times(equation: Equation, unknowns: usize, factor: u8, other: Equation) -> Equation
    requires { unknowns ≤ MAX_UNKNOWNS }
    ensures added { (j : ℕ) → j < unknowns → slice_index result j
        ≡ bit_xor (slice_index equation j) (times factor (slice_index other j)) }
    ensures rest { (j : ℕ) → unknowns ≤ j → slice_index result j ≡ slice_index equation j }
{
    let mut sum = equation;
    for j in 0..unknowns {
        sum[j] = add(equation[j], mul(factor, other[j]));
    }
    sum
}

/// The equation with its first coefficients multiplied.
fn multiple(equation: Equation, unknowns: usize, factor: u8) -> Equation
    requires { unknowns ≤ MAX_UNKNOWNS }
    ensures multiplied { (j : ℕ) → j < unknowns
        → slice_index result j ≡ times factor (slice_index equation j) }
    ensures rest { (j : ℕ) → unknowns ≤ j → slice_index result j ≡ slice_index equation j }
{
    let mut product = equation;
    for j in 0..unknowns {
        product[j] = mul(factor, equation[j]);
    }
    product
}

/// The system that says that the matrix times x is y.
pub fn equations_of(matrix: &Matrix) -> Equations
    requires { matrix.now.rows ≡ matrix.now.columns }
    ensures says { IsSystemOf matrix.now.columns (entry matrix.now) (coefficient result) }
    ensures unsolved { IsSolvedBelow matrix.now.columns (coefficient result) 0 }
{
    let size = matrix.columns;
    let mut equations = [[0; MAX_UNKNOWNS]; MAX_SIDE];
    for i in 0..size {
        let mut equation = [0; MAX_UNKNOWNS];
        for j in 0..size {
            equation[j as usize] = matrix.at(i, j);
        }
        equation[(size + i) as usize] = 1;
        equations[i as usize] = equation;
    }
    equations
}

/// The first equation from `column` on that has the unknown of this column.
fn equation_with(equations: &Equations, size: usize, column: usize) -> Option<usize>
    requires { size ≤ MAX_SIDE }
    ensures some { IfSome result (λ i. (column ≤ i) × (i < size)
        × (coefficient equations.now i column ≢ 0)) }
    ensures none { IfNone result (IsStuckAt size (coefficient equations.now) column) }
{
    for i in column..size {
        if equations[i][column] != 0 {
            return Some(i);
        }
    }
    None
}

/// Adds a multiple of equation `p` to equation `i`.
fn add_to(equations: &mut Equations, unknowns: usize, i: usize, factor: u8, p: usize)
    requires narrow { unknowns ≤ MAX_UNKNOWNS }
    requires i_in { i < MAX_SIDE }
    requires p_in { p < MAX_SIDE }
    ensures { AddsTimes unknowns (coefficient equations.old) (coefficient equations.new)
        i factor p }
{
    let other = equations[p];
    equations[i] = plus_times(equations[i], unknowns, factor, other);
}

/// Multiplies equation `i`.
fn scale(equations: &mut Equations, unknowns: usize, i: usize, factor: u8)
    requires narrow { unknowns ≤ MAX_UNKNOWNS }
    requires i_in { i < MAX_SIDE }
    ensures { Scales unknowns (coefficient equations.old) (coefficient equations.new) i factor }
{
    equations[i] = multiple(equations[i], unknowns, factor);
}

/// Brings the unknown of this column into the equation of the column, from equation `with`.
fn bring(equations: &mut Equations, size: usize, unknowns: usize, column: usize, with: usize)
    requires few { size ≤ MAX_SIDE }
    requires narrow { (size ≤ unknowns) × (unknowns ≤ MAX_UNKNOWNS) }
    requires behind { column ≤ with }
    requires within { with < size }
    requires has { coefficient equations.old with column ≢ 0 }
    requires solved { IsSolvedBelow size (coefficient equations.old) column }
    ensures same { SameSolutions size unknowns
        (coefficient equations.old) (coefficient equations.new) }
    ensures solved { IsSolvedBelow size (coefficient equations.new) column }
    ensures has { coefficient equations.new column column ≢ 0 }
{
    if equations[column][column] == 0 {
        add_to(equations, unknowns, column, 1, with);
    }
}

/// Makes the coefficient of the unknown of this column 1 in the equation of the column.
fn normalize(equations: &mut Equations, size: usize, unknowns: usize, column: usize)
    requires few { size ≤ MAX_SIDE }
    requires narrow { (size ≤ unknowns) × (unknowns ≤ MAX_UNKNOWNS) }
    requires within { column < size }
    requires has { coefficient equations.old column column ≢ 0 }
    requires solved { IsSolvedBelow size (coefficient equations.old) column }
    ensures same { SameSolutions size unknowns
        (coefficient equations.old) (coefficient equations.new) }
    ensures solved { IsSolvedBelow size (coefficient equations.new) column }
    ensures one { coefficient equations.new column column ≡ 1 }
{
    if let Some(factor) = inv(equations[column][column]) {
        scale(equations, unknowns, column, factor);
    } else {
        unreachable!();
    }
}

/// Takes the unknown of this column out of all equations but its own.
fn clear(equations: &mut Equations, size: usize, unknowns: usize, column: usize)
    requires few { size ≤ MAX_SIDE }
    requires narrow { (size ≤ unknowns) × (unknowns ≤ MAX_UNKNOWNS) }
    requires within { column < size }
    requires one { coefficient equations.old column column ≡ 1 }
    requires solved { IsSolvedBelow size (coefficient equations.old) column }
    ensures same { SameSolutions size unknowns
        (coefficient equations.old) (coefficient equations.new) }
    ensures solved { IsSolvedBelow size (coefficient equations.new) (column + 1) }
{
    for i in 0..size {
        if i != column {
            let factor = equations[i][column];
            add_to(equations, unknowns, i, factor, column);
        }
    }
}

/// Solves the system for the unknown of this column: the unknown stays in one equation alone. False
/// where no equation from `column` on has it, and then nothing changes.
fn solve_for(equations: &mut Equations, size: usize, unknowns: usize, column: usize) -> bool
    requires few { size ≤ MAX_SIDE }
    requires narrow { (size ≤ unknowns) × (unknowns ≤ MAX_UNKNOWNS) }
    requires within { column < size }
    requires solved { IsSolvedBelow size (coefficient equations.old) column }
    ensures same { SameSolutions size unknowns
        (coefficient equations.old) (coefficient equations.new) }
    ensures solved { OnTrue result (IsSolvedBelow size (coefficient equations.new) (column + 1)) }
    ensures unchanged { OnFalse result (equations.new ≡ equations.old) }
    ensures stuck { OnFalse result (IsStuckAt size (coefficient equations.old) column) }
{
    match equation_with(equations, size, column) {
        None => false,
        Some(with) => {
            bring(equations, size, unknowns, column, with);
            normalize(equations, size, unknowns, column);
            clear(equations, size, unknowns, column);
            true
        }
    }
}

/// Solves the system for one unknown after the other, and keeps its solutions. It answers the first
/// unknown for which the system can't be solved, or None.
pub fn solve(equations: &mut Equations, size: usize, unknowns: usize) -> Option<usize>
    requires few { size ≤ MAX_SIDE }
    requires narrow { (size ≤ unknowns) × (unknowns ≤ MAX_UNKNOWNS) }
    requires unsolved { IsSolvedBelow size (coefficient equations.old) 0 }
    ensures same { SameSolutions size unknowns
        (coefficient equations.old) (coefficient equations.new) }
    ensures end { EndsAt size (coefficient equations.new) result }
{
    for column in 0..size {
        if !solve_for(equations, size, unknowns, column) {
            return Some(column);
        }
    }
    None
}

/// The first number of the column before its own equation that is not zero, or 1.
fn leading(equations: &Equations, column: usize) -> u8
    requires { column < MAX_SIDE }
    ensures { IsLeading (coefficient equations.now) column result }
{
    for i in 0..column {
        if equations[i][column] != 0 {
            return equations[i][column];
        }
    }
    1
}

/// Entry `i` of the kernel list that a column shows, times a factor.
fn shown(equations: &Equations, column: usize, factor: u8, i: usize) -> u8
    requires column_in { column < MAX_SIDE }
    ensures { result ≡ shown_at (coefficient equations.now) column factor i }
{
    if i < column {
        mul(factor, equations[i][column])
    } else if i == column {
        factor
    } else {
        0
    }
}

/// The list that a column shows, times a factor.
fn shown_list(
    alloc: Global,
    equations: &Equations,
    size: usize,
    column: usize,
    factor: u8,
) -> Result<Vec<u8>, AllocError>
    requires { column < MAX_SIDE }
    ensures { IfOk result (λ list. list.items
        ≡ list_of size (shown_at (coefficient equations.now) column factor)) }
{
    let mut list = Vec::with_capacity(alloc, size)?;
    for i in 0..size {
        list.push(shown(equations, column, factor, i))?;
    }
    Ok(list)
}

/// The kernel list that the column of an unknown shows for which the system can't be solved: its
/// first entry that is not zero is 1.
pub fn kernel_of(
    alloc: Global,
    equations: &Equations,
    size: usize,
    column: usize,
) -> Result<KernelList, AllocError>
    requires { column < MAX_SIDE }
    ensures { IfOk result (λ list. (v f : ℕ) × IsLeading (coefficient equations.now) column v
        × (times v f ≡ 1) × (f < 256)
        × (list ≡ list_of size (shown_at (coefficient equations.now) column f))) }
{
    if let Some(factor) = inv(leading(equations, column)) {
        let entries = shown_list(alloc, equations, size, column, factor)?;
        Ok(KernelList { entries })
    } else {
        unreachable!()
    }
}

/// The inverse, which the solved system has on its right side.
pub fn right_side(equations: &Equations, size: u32) -> Matrix
    requires { size ≤ MAX_SIDE }
    ensures size { (result.rows ≡ size) × (result.columns ≡ size) }
    ensures entries { (i j : ℕ) → i < size → j < size
        → entry result i j ≡ coefficient equations.now i (size + j) }
    ensures kept { IsGrid result }
{
    let mut matrix = Matrix::zero(size, size);
    for i in 0..size {
        for j in 0..size {
            matrix.put(i, j, equations[i as usize][(size + j) as usize]);
        }
    }
    matrix
}
