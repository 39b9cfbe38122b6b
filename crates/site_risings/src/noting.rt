ghost use Rattle.std.specs.Prelude.{◌≡◌, ◌&&◌, length, true, false};
ghost use Rattle.tick_plan.specs.Plans.{CanRise};
ghost use Rattle.site_risings.specs.Risings.{CanNote, NotedTo, noted_at, is_high, is_low};

use tick_plan::TickSource;

/// Whether the answer of a condition is this value.
fn is_answer(answer: Option<bool>, value: bool) -> bool
    ensures high { value ≡ true → result ≡ is_high answer }
    ensures low { value ≡ false → result ≡ is_low answer }
{
    match answer {
        Some(found) => found == value,
        None => false,
    }
}

/// Notes that a site rises where its condition is true, and at the moment before it was false.
fn note_site<P: TickSource>(plan: &mut P, site: u32, answer: Option<bool>, low: bool)
    requires { is_high answer && low ≡ true → CanRise (P.planned plan.old) site }
    ensures { P.planned plan.new ≡ noted_at (is_high answer && low) (P.planned plan.old) site }
{
    if is_answer(answer, true) && low {
        plan.rise(site);
    }
}

/// Notes which sites rise at the moment given last, and keeps which ones are low at it: those whose condition is false. It
/// takes no memory.
///
/// Source: MLS 3.6, chapter 16, "Clock Constructors".
pub fn note_sites<P: TickSource>(plan: &mut P, answers: &[Option<bool>], low: &mut [bool])
    requires { CanNote answers.now low.old (P.planned plan.old) }
    ensures { NotedTo answers.now low.old (P.planned plan.old) (length answers.now) (P.planned plan.new) low.new }
{
    for site in 0..answers.len() {
        note_site(plan, site as u32, answers[site], low[site]);
        low[site] = is_answer(answers[site], false);
    }
}
