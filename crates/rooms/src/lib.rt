// Room for what a program reads and writes: an array of a size that is known when the program is built.
#![tactic(auto)]

ghost use Rattle.std.specs.Prelude.{◌≡◌, length};

// An array of SIZE places, with the same value in each. The `ensures` gives only the length, so that nothing unfolds the values.
pub fn room<T: Copy, const SIZE: usize>(blank: T) -> [T; SIZE]
    ensures { SIZE ≡ length result }
{
    [blank; SIZE]
}
