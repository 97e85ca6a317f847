//! The words of the commands.
ghost use Rattle.std.specs.Prelude.{◌≡◌, ◌≤◌, ◌^◌, map, string_bytes, IfSome, Some, false};
ghost use Rattle.std.specs.Str.{bytes_eq};
ghost use Rattle.std.specs.Option.{option_map};
ghost use Rattle.np_answers.specs.Words.{listing, solve_of, check_of, run_of, list_of, plan_of, command_of, budget_of, nodes_of, is_apart};
ghost use Rattle.np_answers.specs.CommandSteps.{told, told_solve, told_check, told_run, told_inputs, told_plan};
ghost use Rattle.np_answers.specs.declared.words.Solve.{Solve as SolveWords};
ghost use Rattle.np_answers.specs.declared.words.Command.TheVariants as fits;

/// How many states `solve` expands where its words name no number.
const DEFAULT_NODES: u32 = 100_000;

/// The most states that `solve` expands.
const MOST_NODES: u32 = 1 << 24;

/// The names of the pair of files that a command reads first.
#[derive(Clone, Copy)]
pub struct Inputs<'a> {
    pub domain: &'a str,
    pub problem: &'a str,
}

/// What `solve` is told: the pair, the two files that it puts, and how many states it may expand.
#[derive(Clone, Copy)]
pub struct Solve<'a> {
    pub inputs: Inputs<'a>,
    pub plan: &'a str,
    pub certificate: &'a str,
    pub nodes: u32,
}

/// What `check` is told: the pair, the certificate, and the plan, where it is told one.
#[derive(Clone, Copy)]
pub struct Check<'a> {
    pub inputs: Inputs<'a>,
    pub certificate: &'a str,
    pub plan: Option<&'a str>,
}

/// What `run` is told: the pair, and the plan.
#[derive(Clone, Copy)]
pub struct Run<'a> {
    pub inputs: Inputs<'a>,
    pub plan: &'a str,
}

/// What a command is told.
#[derive(Clone, Copy)]
pub enum Command<'a> {
    Solve(Solve<'a>),
    Check(Check<'a>),
    Run(Run<'a>),
    /// The pair alone.
    List(Inputs<'a>),
}

/// The command that the words fit; none where they fit no command.
pub fn command_words(words: &[String]) -> Option<Command<'_>>
    ensures told { option_map told result ≡ command_of (map string_bytes words.now) }
    ensures some_nodes { (command : SolveWords) → result ≡ Some (fits.Solve command) → 1 ≤ command.nodes }
    ensures few_nodes { (command : SolveWords) → result ≡ Some (fits.Solve command) → command.nodes ≤ 2 ^ 24 }
    ensures apart { (command : SolveWords) → result ≡ Some (fits.Solve command) → bytes_eq command.plan.now command.certificate.now ≡ false }
{
    match solve_words(words) {
        Some(command) => Some(Command::Solve(command)),
        None => match check_words(words) {
            Some(command) => Some(Command::Check(command)),
            None => match run_words(words) {
                Some(command) => Some(Command::Run(command)),
                None => list_command(words),
            },
        },
    }
}

/// The command `list`, where the words are its own.
fn list_command(words: &[String]) -> Option<Command<'_>>
    ensures told { option_map told result ≡ option_map listing (list_of (map string_bytes words.now)) }
    ensures other { (command : SolveWords) → result ≡ Some (fits.Solve command) → ⊥ }
{
    match list_words(words) {
        Some(inputs) => Some(Command::List(inputs)),
        None => None,
    }
}

/// What the words tell `solve`; none where they aren't `solve DOMAIN PROBLEM PLAN CERT [NODES]`.
fn solve_words(words: &[String]) -> Option<Solve<'_>>
    ensures told { option_map told_solve result ≡ solve_of (map string_bytes words.now) }
    ensures some_nodes { IfSome result (λ solve. 1 ≤ solve.nodes) }
    ensures few_nodes { IfSome result (λ solve. solve.nodes ≤ 2 ^ 24) }
    ensures apart { IfSome result (λ solve. bytes_eq solve.plan.now solve.certificate.now ≡ false) }
{
    let [command, domain, problem, plan, certificate, rest @ ..] = words else {
        return None;
    };
    if command.as_str() != "solve"
        || !are_apart(
            domain.as_str(),
            problem.as_str(),
            plan.as_str(),
            certificate.as_str(),
        )
    {
        return None;
    }
    let nodes = budget(rest)?;
    Some(Solve {
        inputs: Inputs {
            domain: domain.as_str(),
            problem: problem.as_str(),
        },
        plan: plan.as_str(),
        certificate: certificate.as_str(),
        nodes,
    })
}

/// What the words tell `check`; none where they aren't `check DOMAIN PROBLEM CERT [PLAN]`.
fn check_words(words: &[String]) -> Option<Check<'_>>
    ensures { option_map told_check result ≡ check_of (map string_bytes words.now) }
{
    let [command, domain, problem, certificate, rest @ ..] = words else {
        return None;
    };
    if command.as_str() != "check" {
        return None;
    }
    let plan = plan_word(rest)?;
    Some(Check {
        inputs: Inputs {
            domain: domain.as_str(),
            problem: problem.as_str(),
        },
        certificate: certificate.as_str(),
        plan,
    })
}

/// The plan that the words after the certificate name, if they name one; none where there are too many.
fn plan_word(words: &[String]) -> Option<Option<&str>>
    ensures { option_map told_plan result ≡ plan_of (map string_bytes words.now) }
{
    match words {
        [] => Some(None),
        [word] => Some(Some(word.as_str())),
        _ => None,
    }
}

/// What the words tell `run`; none where they aren't `run DOMAIN PROBLEM PLAN`.
fn run_words(words: &[String]) -> Option<Run<'_>>
    ensures { option_map told_run result ≡ run_of (map string_bytes words.now) }
{
    let [command, domain, problem, plan] = words else {
        return None;
    };
    if command.as_str() != "run" {
        return None;
    }
    Some(Run {
        inputs: Inputs {
            domain: domain.as_str(),
            problem: problem.as_str(),
        },
        plan: plan.as_str(),
    })
}

/// What the words tell `list`; none where they aren't `list DOMAIN PROBLEM`.
fn list_words(words: &[String]) -> Option<Inputs<'_>>
    ensures { option_map told_inputs result ≡ list_of (map string_bytes words.now) }
{
    let [command, domain, problem] = words else {
        return None;
    };
    if command.as_str() != "list" {
        return None;
    }
    Some(Inputs {
        domain: domain.as_str(),
        problem: problem.as_str(),
    })
}

/// Whether the names that are written differ from each other and from those that are read.
fn are_apart(domain: &str, problem: &str, plan: &str, certificate: &str) -> bool
    ensures { result ≡ is_apart domain.now problem.now plan.now certificate.now }
{
    plan != domain
        && plan != problem
        && certificate != domain
        && certificate != problem
        && plan != certificate
}

/// The budget that the words after the names give.
fn budget(words: &[String]) -> Option<u32>
    ensures value { result ≡ budget_of (map string_bytes words.now) }
    ensures some_nodes { IfSome result (λ nodes. 1 ≤ nodes) }
    ensures few_nodes { IfSome result (λ nodes. nodes ≤ 2 ^ 24) }
{
    match words {
        [] => Some(DEFAULT_NODES),
        [word] => nodes(word.as_bytes()),
        _ => None,
    }
}

/// A number from 1 to 16777216 in decimal digits without a leading zero.
fn nodes(word: &[u8]) -> Option<u32>
    ensures value { result ≡ nodes_of word.now }
    ensures some_nodes { IfSome result (λ nodes. 1 ≤ nodes) }
    ensures few_nodes { IfSome result (λ nodes. nodes ≤ 2 ^ 24) }
{
    if word.first().is_none_or(|first| *first <= b'0') {
        return None;
    }
    let mut nodes = 0u32;
    for byte in word {
        if !byte.is_ascii_digit() {
            return None;
        }
        nodes = nodes * 10 + u32::from(*byte - b'0');
        if nodes > MOST_NODES {
            return None;
        }
    }
    Some(nodes)
}
