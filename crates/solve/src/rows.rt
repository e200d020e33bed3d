// Where rows stand in the buffer.
ghost use Rattle.std.specs.Prelude.{◌≡◌, ◌+◌, ◌*◌, ◌≤◌, ◌<◌};
ghost use Rattle.numbers.specs.Limits.{most_unknowns};
ghost use Rattle.solve.specs.Solve.{row_start};

// Where row r of n starts. It ends within the n rows, which spares every caller a product.
pub fn row_start(n: usize, r: usize) -> usize
    requires { (r < n) × (n ≤ most_unknowns) }
    ensures { (result ≡ row_start n r) × (result + (n + 1) ≤ n * (n + 1)) }
{
    r * (n + 1)
}
