// Solves a system of linear equations, N rows by N + 1 columns in one lent buffer, by Gaussian elimination with partial pivoting and back substitution, bit for bit as the Rust does.
// The meaning of each function stands under its own name in specs/Solve.antt; the engine's passes come here.
#![tactic(auto)]

ghost use Rattle.std.specs.Prelude.{◌≡◌, ◌+◌, ◌*◌, ◌≤◌, ◌<◌, length};
ghost use Rattle.numbers.specs.Limits.{most_unknowns};
ghost use Rattle.numbers.specs.Refusals.{refused_by};
ghost use Rattle.solve.specs.Solve.{solved_as, solve_of, solve_refusal, next_abs, eliminated, solution};

mod elimination;
mod pivot;
mod rows;
mod substitution;
mod update;

use numbers::limit::UNKNOWNS;
use numbers::refusal::Refusal;

// Solves the system of `n` rows in `matrix` and puts the unknowns into `vector`. Refused as `Order` for `n` 0 or above 48, as `Room` for a buffer that is too short.
pub fn solve(matrix: &mut [f64], vector: &mut [f64], n: usize) -> Result<(), Refusal>
    ensures { solved_as (refused_by result) matrix.new vector.new ≡ solve_of n matrix.old vector.old }
{
    refusal(n, matrix.len(), vector.len())?;
    let size = n * (n + 1);
    run(&mut matrix[..size], &mut vector[..n], n);
    Ok(())
}

// The row, from row `k` on, with the largest absolute entry in column `k` of the `n` rows in `matrix`.
pub fn index_of_next_abs(matrix: &[f64], n: usize, k: usize) -> usize
    ensures { result ≡ next_abs n k matrix.now }
{
    if UNKNOWNS < n || n <= k || matrix.len() < n * (n + 1) {
        return k;
    }
    pivot::next_abs(matrix, n, k, n)
}

// Whether buffers of these lengths hold n rows.
fn refusal(n: usize, matrix: usize, vector: usize) -> Result<(), Refusal>
    ensures { refused_by result ≡ solve_refusal n matrix vector }
{
    if n == 0 || UNKNOWNS < n {
        return Err(Refusal::Order);
    }
    if matrix < n * (n + 1) || vector < n {
        return Err(Refusal::Room);
    }
    Ok(())
}

// Eliminates and substitutes in buffers of the right lengths.
fn run(m: &mut [f64], x: &mut [f64], n: usize)
    requires { (1 ≤ n) × (n ≤ most_unknowns) × (length m.old ≡ n * (n + 1)) × (length x.old ≡ n) }
    ensures { (m.new ≡ eliminated n m.old) × (x.new ≡ solution n m.old) }
{
    elimination::eliminate(m, n);
    substitution::substitute(m, x, n);
}
