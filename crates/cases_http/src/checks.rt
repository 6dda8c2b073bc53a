//! Checks as the cases write them.

use crate::answers::Answers;
use crate::words::{arguments_word, day_word};
use crate::written::{put_count, put_text, put_word};
use pl_base::{FileKey, List, Text};
use pl_checks::{Approval, BusinessHours, Check, RequiredTemplate};
use std::alloc::Global;

pub fn put_key(alloc: Global, out: &mut Answers, key: &FileKey) {
    put_text(alloc, out, key.repo.as_str());
    put_text(alloc, out, key.git_ref.as_str());
    put_text(alloc, out, key.path.as_str())
}

/// The first three texts of a list, and how many there are where there are more.
pub fn put_texts(alloc: Global, out: &mut Answers, texts: &List<Text>) {
    for text in texts.as_slice().iter().take(3) {
        put_text(alloc, out, text.as_str());
    }
    if texts.len() > 3 {
        put_word(out, "..");
        put_count(alloc, out, texts.len() as u64);
    }
}

fn put_template(alloc: Global, out: &mut Answers, told: &RequiredTemplate) {
    put_word(out, "template");
    for key in told.templates.as_slice() {
        put_key(alloc, out, key);
    }
    put_word(out, arguments_word(told.arguments))
}

fn put_approval(alloc: Global, out: &mut Answers, told: &Approval) {
    put_word(out, "approval");
    put_texts(alloc, out, &told.approvers);
    put_word(out, "least");
    put_count(alloc, out, told.least as u64);
    put_word(
        out,
        if told.requester {
            "requester too"
        } else {
            "not requester"
        },
    );
    put_word(out, "minutes");
    put_count(alloc, out, told.minutes as u64)
}

fn put_hours(alloc: Global, out: &mut Answers, told: &BusinessHours) {
    put_word(out, "hours");
    for day in told.days.as_slice() {
        put_word(out, day_word(*day));
    }
    put_text(alloc, out, told.zone.text().as_str());
    put_count(alloc, out, told.start as u64);
    put_count(alloc, out, told.end as u64);
    put_word(out, "minutes");
    put_count(alloc, out, told.minutes as u64)
}

fn put_check(alloc: Global, out: &mut Answers, check: &Check) {
    put_word(out, "|");
    match check {
        Check::RequiredTemplate(told) => put_template(alloc, out, told),
        Check::Branch(told) => {
            put_word(out, "branch");
            put_texts(alloc, out, &told.patterns)
        }
        Check::Approval(told) => put_approval(alloc, out, told),
        Check::Hours(told) => put_hours(alloc, out, told),
    }
}

pub fn put_checks(alloc: Global, out: &mut Answers, checks: &List<Check>) {
    for check in checks.as_slice() {
        put_check(alloc, out, check);
    }
}
