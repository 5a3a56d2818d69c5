// Answers as numbers, for programs in other languages.
#![tactic(auto)]

ghost use Rattle.std.specs.Prelude.{◌≡◌, [], ◌∷◌, ◌++◌};
ghost use Rattle.told.specs.Coded.{verdict_code, said_words, done_words, counted_words, ran_words};

use batch::Checked;
use tables::{Answer, Counts, Refusal};

// A refusal's number times 2^32 plus its place, or 0.
pub fn verdict(v: Result<(), Refusal>) -> u64
    ensures { result ≡ verdict_code v }
{
    match v {
        Ok(()) => 0,
        Err(r) => (r.number as u64) * 4294967296 + (r.place as u64),
    }
}

// 0 where it is accepted; 1, rule and id; or 2, a refusal's number and place.
pub fn answer(a: Answer) -> [u32; 3]
    ensures { result ≡ said_words a }
{
    match a {
        Answer::Accepted => [0, 0, 0],
        Answer::Broken(rule, id) => [1, rule, id],
        Answer::Refused(number, place) => [2, number, place],
    }
}

// A batch check's answer, how many pairs it listed, and how many rows of objects and links are used after it.
pub fn checked(done: Checked) -> [u32; 6]
    ensures { result ≡ said_words done.answer ++ done.pairs ∷ done.objects ∷ done.links ∷ [] }
{
    let given = done.answer;
    let said = answer(given);
    [
        said[0],
        said[1],
        said[2],
        done.pairs,
        done.objects,
        done.links,
    ]
}

// 0 and the used rows of the copy after the batch; or 1, a refusal's number and place.
pub fn ran(verdict: Result<(), Refusal>, objects: u32, links: u32) -> [u32; 3]
    ensures { result ≡ ran_words verdict objects links }
{
    match verdict {
        Ok(()) => [0, objects, links],
        Err(r) => [1, r.number, r.place],
    }
}

// 0, how many event types were listed or bytes written, and 0; or 1, a refusal's number and place.
pub fn counted(done: Result<u32, Refusal>) -> [u32; 3]
    ensures { result ≡ counted_words done }
{
    match done {
        Ok(count) => [0, count, 0],
        Err(Refusal { number, place }) => [1, number, place],
    }
}

// 0 and the rows of the seven sections; or 1, a refusal's number, its line, and zeros.
pub fn reading(o: Result<Counts, Refusal>) -> [u32; 8]
    ensures { result ≡ done_words o }
{
    match o {
        Ok(n) => [
            0,
            n.types,
            n.floors,
            n.relationships,
            n.rules,
            n.objects,
            n.links,
            n.events,
        ],
        Err(r) => [1, r.number, r.place, 0, 0, 0, 0, 0],
    }
}
