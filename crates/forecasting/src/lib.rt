// The forecast of a sheet that settles: how many values, records, and pairs of rule and carried values it may come to.
#![tactic(auto)]

mod marks;
mod terms;
mod values;

ghost use Rattle.std.specs.Prelude.{◌≡◌, length};
ghost use Rattle.chase.specs.Judge.{shape_limit};
ghost use Rattle.rules.specs.Table.{SheetHeld, lines_in};
ghost use Rattle.arithmetic.specs.Capped.{capped};
ghost use Rattle.growth.specs.Forecast.{figure as figureFor, forecast as forecastOf};
ghost use Rattle.growth.specs.Contract.{ForecastMeets};
ghost use Rattle.forecasting.specs.Answer.{figure_of, figures_of, forecast_says, forecast_refusal_number, forecast_refusal_line, SameRefusal};
ghost use Rattle.forecasting.specs.Inner.Terms.{grown, DepthSays};

use judging::{JudgeRefusal, Verdict};
use sheet::RefusalNumbers;

// What is foretold: at most so many values, records, and pairs of rule and carried values. A figure beyond 4,294,967,295 is `None`.
#[derive(Clone, Copy)]
pub struct Figures {
    pub values: Option<u32>,
    pub records: Option<u32>,
    pub pairs: Option<u32>,
}

// Why nothing is foretold.
#[derive(Clone, Copy)]
pub enum ForecastRefusal {
    // Lent lines that are no sheet, with the first wrong line.
    LineWrong(usize),
    // The reachable records show more than 512 shapes.
    ShapesOver,
    // The sheet is endless.
    Endless,
}

// A refusal of judging as one of the forecast. Steps enough are lent, so the first is never given.
impl From<JudgeRefusal> for ForecastRefusal {
    ghost from_gives = { SameRefusal };

    fn from(refusal: JudgeRefusal) -> ForecastRefusal {
        match refusal {
            JudgeRefusal::StepsShort => ForecastRefusal::LineWrong(0),
            JudgeRefusal::LineWrong(line) => ForecastRefusal::LineWrong(line),
            JudgeRefusal::ShapesOver => ForecastRefusal::ShapesOver,
        }
    }
}

// Foretells of lent lines, eight numbers each, how many values, records, and pairs of rule and carried values a run may come to.
pub fn forecast(lines: &[u32]) -> Result<Figures, ForecastRefusal>
    ensures { ForecastMeets shape_limit lines.now (forecast_says result) }
{
    let deepest = judged_depth(lines)?;
    Ok(foretell(lines, deepest))
}

// The paper's number and the line of a refusal; line 0 where none is named.
pub fn refusal_numbers(refusal: ForecastRefusal) -> RefusalNumbers
    ensures { (result.number ≡ forecast_refusal_number refusal) × (result.line ≡ forecast_refusal_line refusal) }
{
    match refusal {
        ForecastRefusal::LineWrong(line) => RefusalNumbers { number: 8, line },
        ForecastRefusal::ShapesOver => RefusalNumbers {
            number: 11,
            line: 0,
        },
        ForecastRefusal::Endless => RefusalNumbers {
            number: 21,
            line: 0,
        },
    }
}

// The deepest generation of a sheet that settles. A function of its own, so that the steps are gone when the values are counted.
fn judged_depth(lines: &[u32]) -> Result<usize, ForecastRefusal>
    ensures { DepthSays lines.now result }
{
    let mut steps = [0u16; 20480];
    match judging::judge(lines, &mut steps)? {
        Verdict::Settles(f) => Ok(f.deepest),
        Verdict::Endless(_) => Err(ForecastRefusal::Endless),
    }
}

// The last t, up to the cap: from the first one, so many generations on.
fn last_t(first: u64, fresh: &[u64], deepest: usize) -> u64
    ensures { capped result ≡ capped (grown fresh.now first deepest) }
{
    let mut t = first;
    for _ in 0..deepest {
        t = arithmetic::plus_capped(first, arithmetic::polynomial(fresh, t));
    }
    t
}

// A number that is stopped at 4,294,967,296 as a figure.
fn figure_of(n: u64) -> Option<u32>
    ensures { figure_of result ≡ figureFor n }
{
    u32::try_from(n).ok()
}

// The figures of a sheet with this deepest generation.
fn foretell(lines: &[u32], deepest: usize) -> Figures
    requires { SheetHeld lines.now }
    ensures { figures_of result ≡ forecastOf (lines_in lines.now) deepest }
{
    let first = values::count_values(lines) as u64;
    let kinds = terms::kind_terms(lines);
    let rules = terms::rule_terms(lines);
    let t = last_t(first, &rules.fresh, deepest);
    Figures {
        values: figure_of(t),
        records: figure_of(arithmetic::polynomial(&kinds, t)),
        pairs: figure_of(arithmetic::polynomial(&rules.pairs, t)),
    }
}
