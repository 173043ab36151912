// The grid of the congestion measure (SCOPE 9.1): whole multiples of 1/64.
ghost use Rattle.std.specs.Prelude.{◌≡◌};
ghost use Rattle.floats.specs.Grid as Grid;

// A whole multiple of 1/64 with absolute value at most 1,048,576.
pub fn on_grid(x: f64) -> bool
    ensures { result ≡ Grid.on_grid x }
{
    if x >= -1048576.0 {
        if x <= 1048576.0 {
            let y = x * 64.0;
            let n = std::num::truncating_f64_to_i64(y);
            n as f64 == y
        } else {
            false
        }
    } else {
        false
    }
}
