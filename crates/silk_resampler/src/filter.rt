// What distinguishes the filters at two thirds of the rate.
#![tactic(auto)]

ghost use Rattle.std.specs.Prelude.{◌<◌, ◌^◌};

// In what the filters at two thirds of the rate differ: by what the recursion's output is multiplied before a coefficient, how often it is itself added to the first state, and
// the bits by which the first and the second output of a pair are rounded. The numbers fit a signed word, and the roundings round.
#[derive(Clone, Copy)]
pub struct Filter {
    pub factor: u32,
    pub adds: u32,
    pub round_even: u32,
    pub round_odd: u32,
    pub ghost factor_fits: { factor < 2 ^ 31 },
    pub ghost adds_fits: { adds < 2 ^ 31 },
    pub ghost even_rounds: { 0 < round_even },
    pub ghost even_below: { round_even < 31 },
    pub ghost odd_rounds: { 0 < round_odd },
    pub ghost odd_below: { round_odd < 31 },
}
