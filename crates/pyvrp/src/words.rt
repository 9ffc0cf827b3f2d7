//! The words of the command.
ghost use Rattle.std.specs.Prelude.{◌≡◌, ◌==◌, ◌<◌, ◌≤◌, IfSome, length, map, option_map, string_bytes};
ghost use Rattle.std.specs.List.{after_last};
ghost use Rattle.pyvrp.specs.Solving.{iteration_limit};
ghost use Rattle.pyvrp.specs.inside.Asked.{shown};
ghost use Rattle.command_model.specs.Words.{are_option_names, asked, asked_by, base_name, is_option_like, number_up_to, without_ending, word_at};

/// The most iterations that may be asked for.
const MOST_ITERATIONS: u32 = 1_000_000_000;

/// What the words ask for.
#[derive(Clone, Copy, Debug)]
pub struct Asked<'a> {
    /// The seed of the generator.
    pub seed: u32,
    /// The number of iterations.
    pub iterations: u32,
    /// The path of the instance.
    pub path: &'a str,
}

/// The number that a text spells, as Rust reads unsigned numbers, where it is at most `most`.
fn number_up_to(text: &str, most: u32) -> Option<u32>
    ensures { result ≡ number_up_to most text.now }
{
    match text.parse::<u32>() {
        Ok(number) => { if number <= most { Some(number) } else { None } }
        Err(_) => None,
    }
}

/// Whether a word begins as options do.
fn is_option_like(word: &str) -> bool
    ensures { result ≡ is_option_like word.now }
{
    word.as_bytes().first() == Some(&b'-')
}

/// Whether two words are the names of the two options.
fn are_option_names(first: &str, second: &str) -> bool
    ensures { result ≡ are_option_names first.now second.now }
{
    first == "--seed" && second == "--max_iterations"
}

/// What a seed, a number of iterations and a path ask for, where they are right.
fn asked_by<'a>(seed: &str, iterations: &str, path: &'a str) -> Option<Asked<'a>>
    ensures asked { option_map shown result ≡ asked_by seed.now iterations.now path.entry.now }
    ensures few { IfSome result (λ a. a.iterations ≤ iteration_limit) }
{
    if is_option_like(path) {
        return None;
    }
    let seed = number_up_to(seed, u32::MAX)?;
    let Some(iterations) = number_up_to(iterations, MOST_ITERATIONS) else {
        return None;
    };
    Some(Asked {
        seed,
        iterations,
        path,
    })
}

/// The k-th word, from 0.
fn word_at(words: &[String], k: usize) -> &str
    requires { k < length words.now }
    ensures { result.now ≡ word_at (map string_bytes words.now) k }
{
    words[k].as_str()
}

/// What the words ask for, where they are the five words `--seed S --max_iterations N NAME`.
pub fn read_words(words: &[String]) -> Option<Asked<'_>>
    ensures asked { option_map shown result ≡ asked (map string_bytes words.entry.now) }
    ensures five { IfSome result (λ _. length words.entry.now ≡ 5) }
    ensures few { IfSome result (λ a. a.iterations ≤ iteration_limit) }
{
    if words.len() != 5 {
        return None;
    }
    if !are_option_names(word_at(words, 0), word_at(words, 2)) {
        return None;
    }
    asked_by(word_at(words, 1), word_at(words, 3), word_at(words, 4))
}

/// The path without `.vrp` at its end.
fn without_ending(path: &str) -> &str
    ensures { result.now ≡ without_ending path.now }
{
    match path.strip_suffix(".vrp") {
        Some(name) => name,
        None => path,
    }
}

/// What stands after the last `/` of a path.
fn after_last_slash(path: &str) -> &str
    ensures { result.now ≡ after_last (λ b. b == 47) path.now }
{
    match path.rsplit_once('/') {
        Some((_, name)) => name,
        None => path,
    }
}

/// The name of an instance: what stands after the last `/` of its path, without `.vrp` at its end.
pub fn base_name(path: &str) -> &str
    ensures { result.now ≡ base_name path.now }
{
    without_ending(after_last_slash(path))
}
