// A question judged and translated: the plan of an accepted one, or the first refusal with its place.
ghost use Rattle.std.specs.Prelude.{◌≡◌, true, ◌≤◌, length, Ok};
ghost use Rattle.catalogue.specs.Judging.{catalogue_ok};
ghost use Rattle.question.specs.Walk.{judged_by_walk};
ghost use Rattle.translation.specs.declared.call.NotTranslated.TheVariants.{WrongQuestion};
ghost use Rattle.translation.specs.declared.call.NotTranslated.TheVariants.{WrongCatalogue as OfCatalogue};
ghost use Rattle.translation.specs.TranslateCall.{translate_numbers, translate_status, translate_place, plan_buffer_words, written_numbers, written, translate_outcome};

use catalogue::judging::{WrongCatalogue, judge_catalogue};
use emission::heavy::count_heavy;
use plan_writing::translate::{Question, translate_range};
use question::judgement::{Refusal, judge, judge_count};
use relations::limits::{PLAN_WORDS, QUESTION_NODE_WORDS};

// How many nodes the plan has, and how many of them are heavy.
#[derive(Clone, Copy)]
pub struct Translated {
    pub nodes: u32,
    pub heavy: u32,
}

#[derive(Clone, Copy)]
pub enum NotTranslated {
    WrongCatalogue,
    // The plan buffer has too few words.
    ShortPlan,
    WrongQuestion(Refusal),
}

impl NotTranslated {
    // Its number in document 01.
    pub fn status(self) -> u32
        ensures { result ≡ translate_status self }
    {
        match self {
            NotTranslated::WrongCatalogue => 7,
            NotTranslated::ShortPlan => 8,
            NotTranslated::WrongQuestion(refusal) => refusal.status(),
        }
    }

    pub fn place(self) -> u32
        ensures { result ≡ translate_place self }
    {
        match self {
            NotTranslated::WrongCatalogue | NotTranslated::ShortPlan => 0,
            NotTranslated::WrongQuestion(refusal) => refusal.place(),
        }
    }
}

impl From<WrongCatalogue> for NotTranslated {
    ghost from_gives = { λ _ refusal. refusal ≡ OfCatalogue };

    fn from(_wrong: WrongCatalogue) -> NotTranslated {
        NotTranslated::WrongCatalogue
    }
}

impl From<Refusal> for NotTranslated {
    ghost from_gives = { λ refusal given. given ≡ WrongQuestion refusal };

    fn from(refusal: Refusal) -> NotTranslated {
        NotTranslated::WrongQuestion(refusal)
    }
}

// The plan of an accepted question.
fn write_plan(catalogue: &[u32], question: &[u32], mode: u32, plan: &mut [u32]) -> Translated
    requires { (catalogue_ok catalogue.now ≡ true) × (plan_buffer_words ≤ length plan.old) × (judged_by_walk catalogue.now question.now ≡ Ok tt) }
    ensures { record { numbers = written_numbers result; plan = plan.new } ≡ written catalogue.now question.now mode plan.old }
{
    let last = (question.len() / QUESTION_NODE_WORDS) as u32;
    let asked = Question {
        catalogue,
        words: question,
        short: mode != 0,
    };
    let made = translate_range(&asked, last, plan, 0);
    let heavy = count_heavy(plan, made.count);
    Translated {
        nodes: made.count,
        heavy,
    }
}

// The lemma stands here in place of an answer, which would cite the test of the plan's length by its name: a wrong test is then refused for what it says.
#[tactic(auto, using(crate::proofs::CallLaws::refused_short))]
pub fn translate(
    catalogue: &[u32],
    question: &[u32],
    mode: u32,
    plan: &mut [u32],
) -> Result<Translated, NotTranslated>
    ensures { record { numbers = translate_numbers result; plan = plan.new } ≡ translate_outcome catalogue.now question.now mode plan.old }
{
    judge_catalogue(catalogue)?;
    judge_count(question)?;
    if plan.len() < PLAN_WORDS {
        return Err(NotTranslated::ShortPlan);
    }
    judge(catalogue, question)?;
    Ok(write_plan(catalogue, question, mode, plan))
}
