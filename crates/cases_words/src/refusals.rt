use pl_base::{FileKey, List, Memory, Place, Refusal, Shared, Text};
use pl_report::refusal_line;
use std::alloc::Global;

fn place(alloc: Global) -> Result<Place, Memory> {
    let repo = Text::from_str(alloc, "app")?;
    let git_ref = Text::from_str(alloc, "refs/heads/main")?;
    let path = Text::from_str(alloc, "/ci.yml")?;
    let key = FileKey {
        repo,
        git_ref,
        path,
    };
    Place::at(alloc, &Shared::new(alloc, key)?, 12, 305)
}

fn details(alloc: Global, words: &str) -> Result<List<Text>, Memory> {
    let mut texts = List::new(alloc);
    for word in words.split_whitespace() {
        texts.push(Text::from_str(alloc, word)?)?;
    }
    Ok(texts)
}

fn refusal(alloc: Global, text: &str) -> Result<Refusal, Memory> {
    let (code, words) = text.split_once(' ').unwrap_or((text, ""));
    let place = place(alloc)?;
    let code = Text::from_str(alloc, code)?;
    let detail = details(alloc, words)?;
    Ok(Refusal {
        code,
        place,
        detail,
    })
}

/// Writes the line of a refusal of this code and these details, at line 12 and column 305 of
/// `/ci.yml` in the repository `app`.
pub fn answer_refusal(alloc: Global, out: &mut Text, text: &str) -> Result<(), Memory> {
    let refusal = refusal(alloc, text)?;
    let line = refusal_line(alloc, &refusal)?;
    out.push_str(line.as_str())
}
