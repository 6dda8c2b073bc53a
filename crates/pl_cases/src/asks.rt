use crate::answers::Answers;
use std::alloc::Global;

/// What a program of cases answers.
pub trait Questions {
    /// Writes the answer to a case, behind the line of its name. The notes stand between the
    /// question and its first case.
    fn answer(&mut self, alloc: Global, out: &mut Answers, question: &str, notes: &str, case: &str);
}

/// A first line, and what stands below it.
pub fn first_line(text: &str) -> (&str, &str) {
    text.split_once('\n').unwrap_or((text, ""))
}

/// Answers all cases of a text. In it, behind what is for readers alone, stand questions, each on a
/// line `%%% ask QUESTION`, and behind a question, after notes, its cases: a line `%%% case NAME`
/// and all that follows, up to the line feed before the next such line or the text's end. An answer
/// stands behind the line `%%% case NAME`.
pub fn answer_all<Q: Questions>(alloc: Global, out: &mut Answers, questions: &mut Q, text: &str) {
    answer_each(out, text, |out, question, notes, case| {
        questions.answer(alloc, out, question, notes, case)
    })
}

/// The same by a function, which writes the answer to a case, given the question, the notes and the
/// case. (A method of `Questions` isn't told what its impl asks of a type, as that threads may share
/// a runtime; a function is.)
pub fn answer_each<F: FnMut(&mut Answers, &str, &str, &str)>(
    out: &mut Answers,
    text: &str,
    mut answer: F,
)
    requires { F.IsAlwaysCallable answer }
{
    let text = text.strip_suffix('\n').unwrap_or(text);
    for ask in text.split("\n%%% ask ").skip(1) {
        answer_ask(out, ask, &mut answer);
    }
}

/// Answers the cases of a question.
fn answer_ask<F: FnMut(&mut Answers, &str, &str, &str)>(
    out: &mut Answers,
    ask: &str,
    answer: &mut F,
)
    requires { F.IsAlwaysCallable answer.old }
    ensures { F.IsAlwaysCallable answer.new }
{
    let (question, rest) = first_line(ask);
    let (notes, cases) = rest.split_once("%%% case ").unwrap_or((rest, ""));
    for case in cases.split("\n%%% case ") {
        let (name, case) = first_line(case);
        out.line("%%% case ", name);
        answer(out, question, notes, case);
    }
}
