// The closure by rows under the C calling convention, for tests and benchmarks only: what C and Rust call stands in crates/plimdrong. No `requires`.
#![tactic(auto)]

ghost use Rattle.closing.specs.Closure.{taken, Closed};

#[unsafe(no_mangle)]
pub extern "C" fn closing_close(rows: &mut [u32], n: usize)
    ensures { Closed (taken n rows.old) rows.old rows.new }
{
    closing::close(rows, n);
}
