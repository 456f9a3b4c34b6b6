// A line between two values of `f32`, as `f64`.
ghost use Rattle.std.specs.Prelude.{◌≡◌, T, MatchOption};
ghost use Rattle.std.specs.Float.{binary32};
ghost use Rattle.std.specs.Float.Ieee.{fits};
ghost use Rattle.std.specs.Float.Ieee.Scale.{finite};

// c + a * x, of two finite values of `f32`.
#[derive(Clone, Copy)]
pub struct Line {
    pub c: f64,
    pub a: f64,
    pub ghost ends: { T (fits binary32 a) × T (fits binary32 c) × T (finite a) × T (finite c) },
}

impl Line {
    // The line from a value by a difference, where both are finite.
    pub fn between(from: f32, diff: f32) -> Option<Line>
        ensures { MatchOption result (Unit {0}) (λ l. (l.c ≡ from) × (l.a ≡ diff)) }
    {
        if floats::is_finite(from) && floats::is_finite(diff) {
            return Some(Line {
                c: from as f64,
                a: diff as f64,
            });
        }
        None
    }
}
