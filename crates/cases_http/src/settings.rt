//! Settings as the cases write them.

use crate::answers::Answers;
use crate::checks::{put_checks, put_texts};
use crate::words::{kind_word, outcome_word, role_word};
use crate::written::{put_count, put_text, put_word};
use pl_base::{Argument, List, Text};
use pl_digests::hex_of;
use pl_requests::{
    AgentSetting, Order, PipelineSetting, PrincipalSetting, Report, ResourceSetting,
};
use std::alloc::Global;
use std::str;

pub fn put_pipeline(alloc: Global, out: &mut Answers, told: &PipelineSetting) {
    put_text(alloc, out, told.name.as_str());
    put_text(alloc, out, told.repo.as_str());
    put_text(alloc, out, told.path.as_str())
}

fn put_permitted(alloc: Global, out: &mut Answers, pipelines: &Option<List<Text>>) {
    match pipelines {
        None => put_word(out, "all"),
        Some(names) => {
            put_word(out, "some");
            put_texts(alloc, out, names)
        }
    }
}

pub fn put_resource(alloc: Global, out: &mut Answers, told: &ResourceSetting) {
    put_word(out, kind_word(told.key.kind));
    put_text(alloc, out, told.key.name.as_str());
    put_permitted(alloc, out, &told.pipelines);
    put_word(
        out,
        if told.exclusive {
            "exclusive"
        } else {
            "shared"
        },
    );
    put_checks(alloc, out, &told.checks)
}

pub fn put_principal(alloc: Global, out: &mut Answers, told: &PrincipalSetting) {
    put_text(alloc, out, told.name.as_str());
    for role in told.roles.as_slice() {
        put_word(out, role_word(*role));
    }
    let digits = hex_of(&told.digest);
    put_word(out, str::from_utf8(digits.as_slice()).unwrap_or("no text"))
}

/// The first three pairs of a list, and how many there are where there are more.
fn put_pairs(alloc: Global, out: &mut Answers, pairs: &List<(Text, Text)>) {
    for pair in pairs.as_slice().iter().take(3) {
        put_text(alloc, out, pair.0.as_str());
        out.push(":");
        put_text(alloc, out, pair.1.as_str());
    }
    if pairs.len() > 3 {
        put_word(out, "..");
        put_count(alloc, out, pairs.len() as u64);
    }
}

pub fn put_agent(alloc: Global, out: &mut Answers, told: &AgentSetting) {
    put_text(alloc, out, told.name.as_str());
    put_text(alloc, out, told.pool.as_str());
    put_pairs(alloc, out, &told.capabilities)
}

/// The first three arguments of a list, and how many there are where there are more.
fn put_arguments(alloc: Global, out: &mut Answers, told: &List<Argument>) {
    for argument in told.as_slice().iter().take(3) {
        put_text(alloc, out, argument.name.as_str());
        out.push(":");
        put_text(alloc, out, argument.text.as_str());
    }
    if told.len() > 3 {
        put_word(out, "..");
        put_count(alloc, out, told.len() as u64);
    }
}

pub fn put_order(alloc: Global, out: &mut Answers, told: &Order) {
    put_text(alloc, out, told.pipeline.as_str());
    put_text(alloc, out, told.git_ref.as_str());
    put_arguments(alloc, out, &told.arguments)
}

pub fn put_report(alloc: Global, out: &mut Answers, told: &Report) {
    put_word(out, outcome_word(told.outcome));
    put_pairs(alloc, out, &told.outputs)
}
