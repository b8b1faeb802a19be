//! The rules by which a manager forms a view from the answers to its call.
ghost use Rattle.std.specs.Prelude.{◌≡◌, ◌<◌, ◌≤◌, length, take, IfSome, nat_le};
ghost use Rattle.numbers.specs.Majorities.{majority_of};
ghost use Rattle.numbers.specs.Counting.{count as count_of, every as every_of, some as some_of};
ghost use Rattle.forming.specs.Rules.{answered, beats as beats_it, is_best as best_of, answer_view, crashed_in, crashed_until, leads, rule_1 as rule_one, rule_2 as rule_two, rule_3 as rule_three, some_rule, choice as choice_of, ByRules};

use entries::Reply;
use numbers::{Member, View, count, every, first, majority, some};

// A normal answer of a later view than this, or of this view with a greater length.
fn beats(view: View, length: u16, answer: &Option<Reply>) -> bool
    ensures { result ≡ beats_it view length answer.now }
{
    match *answer {
        Some(
            Reply::Normal {
                current,
                length: other,
                ..
            },
        ) => (view, length) < (current, other),
        _ => false,
    }
}

// A normal answer that none beats: of the latest normal view, and in it of the greatest length.
fn is_best(answers: &[Option<Reply>], answer: &Option<Reply>) -> bool
    ensures { result ≡ best_of answers.now answer.now }
{
    match *answer {
        Some(
            Reply::Normal {
                current,
                length,
                ..
            },
        ) => { !some(answers, |other| beats(current, length, other)) }
        _ => false,
    }
}

// The current view that an answer gives.
fn view_of(answer: Option<Reply>) -> View
    ensures { result ≡ answer_view answer }
{
    match answer {
        Some(Reply::Normal { current, .. } | Reply::Crash { current }) => current,
        None => View::ZERO,
    }
}

// A majority have answered.
fn has_majority(n: u16, answers: &[Option<Reply>]) -> bool
    ensures { result ≡ nat_le (majority_of n) (count_of answered answers.now) }
{
    count(answers, |answer| answer.is_some()) >= majority(n) as usize
}

// A majority answered normally.
fn rule_1(n: u16, answers: &[Option<Reply>]) -> bool
    ensures { result ≡ rule_one answers.now n }
{
    let normal = count(
        answers,
        |answer| matches!(answer, Some(Reply::Normal { .. })),
    );
    normal >= majority(n) as usize
}

// Every crash answer's view is earlier than the latest normal one.
fn rule_2(answers: &[Option<Reply>], newest: View) -> bool
    ensures { result ≡ rule_two answers.now newest }
{
    every(answers, |answer| match *answer {
        Some(Reply::Crash { current }) => current < newest,
        _ => true,
    })
}

// Some crash answer is of the view.
fn has_crashed(answers: &[Option<Reply>], view: View) -> bool
    ensures { result ≡ some_of (crashed_in view) answers.now }
{
    some(answers, |answer| {
        matches!(*answer, Some(Reply::Crash { current }) if current == view)
    })
}

// No crash answer is of a later view.
fn crashed_by(answers: &[Option<Reply>], view: View) -> bool
    ensures { result ≡ every_of (crashed_until view) answers.now }
{
    every(answers, |answer| match *answer {
        Some(Reply::Crash { current }) => current <= view,
        _ => true,
    })
}

// The primary of the view answered normally.
fn is_led(answers: &[Option<Reply>], view: View) -> bool
    ensures { result ≡ some_of (leads view) answers.now }
{
    some(answers, |answer| {
        matches!(*answer, Some(Reply::Normal { current, primary: true, .. }) if current == view)
    })
}

// The latest crash and normal views are equal, and the primary of that view answered normally.
fn rule_3(answers: &[Option<Reply>], newest: View) -> bool
    ensures { result ≡ rule_three answers.now newest }
{
    has_crashed(answers, newest) && crashed_by(answers, newest) && is_led(answers, newest)
}

// Whether one of the three rules allows the view, where `newest` is the latest normal one.
fn allowed(n: u16, answers: &[Option<Reply>], newest: View) -> bool
    ensures { result ≡ some_rule answers.now n newest }
{
    rule_1(n, answers) || rule_2(answers, newest) || rule_3(answers, newest)
}

/// The controller that becomes primary of the view, or none where no rule allows it. The answers
/// are those of controllers 0 to n - 1.
pub fn choice(n: u16, answers: &[Option<Reply>]) -> Option<usize>
    ensures value { result ≡ choice_of answers.now n }
    ensures rule { ByRules answers.now n result }
    ensures within { IfSome result (λ c. c < length answers.now) }
{
    if !has_majority(n, answers) {
        return None;
    }
    let chosen = first(answers, |answer| is_best(answers, answer))?;
    if allowed(n, answers, view_of(answers[chosen])) {
        Some(chosen)
    } else {
        None
    }
}

/// The choice among the first n of a manager's table.
pub fn choice_of_first(me: Member, answers: [Option<Reply>; 7]) -> Option<usize>
    ensures value { result ≡ choice_of (take me.n answers) me.n }
    ensures within { IfSome result (λ c. c < 7) }
{
    choice(me.n(), me.of_site(&answers))
}
