//! A clerk's requests, one after another, with the answer to each, and what may be asked of the office
//! in between.
use crate::runs::Desk;
use crate::streams::answers;
use clear_office::office::Office;
use sqlite::Alter;

// A request and its answer: a first account and a correction of it, a month without lines, and a claim
// that is released and put on a list.
const REQUESTS: [(&str, &str); 9] = [
    (
        "POST /employers HTTP/1.1\r\nHost: office\r\nOffice-Key: desk\r\n\
         Request-Number: 1\r\nContent-Length: 53\r\n\r\n\
         {\"employer\":1001,\"name\":\"Bau Nord\",\"start\":\"2024-01\"}",
        "HTTP/1.1 200 OK\r\nContent-Type: application/json\r\nContent-Length: 13\r\n\r\n\
         {\"done\":true}",
    ),
    (
        "POST /employers/1001/reports/2024-01 HTTP/1.1\r\nHost: office\r\nOffice-Key: desk\r\n\
         Request-Number: 2\r\nContent-Length: 40\r\n\r\n\
         {\"lines\":[{\"gross\":1000000,\"worker\":7}]}",
        "HTTP/1.1 200 OK\r\nContent-Type: application/json\r\nContent-Length: 29\r\n\r\n\
         {\"charge\":200000,\"version\":1}",
    ),
    (
        "POST /employers/1001/reports/2024-02 HTTP/1.1\r\nHost: office\r\nOffice-Key: desk\r\n\
         Request-Number: 3\r\nContent-Length: 39\r\n\r\n\
         {\"lines\":[{\"gross\":500050,\"worker\":7}]}",
        "HTTP/1.1 200 OK\r\nContent-Type: application/json\r\nContent-Length: 29\r\n\r\n\
         {\"charge\":100010,\"version\":1}",
    ),
    (
        "POST /bank HTTP/1.1\r\nHost: office\r\nOffice-Key: desk\r\n\
         Request-Number: 4\r\nContent-Length: 118\r\n\r\n\
         reference,value_date,employer,cents,purpose,note\n\
         B1,2024-02-25,1001,150000,C,\nB2,2024-04-21,1001,200000,,January rest\n",
        "HTTP/1.1 200 OK\r\nContent-Type: application/json\r\nContent-Length: 21\r\n\r\n\
         {\"new\":2,\"repeats\":0}",
    ),
    (
        "PUT /employers/1001/reports/2024-01 HTTP/1.1\r\nHost: office\r\nOffice-Key: desk\r\n\
         Request-Number: 5\r\nContent-Length: 51\r\n\r\n\
         {\"lines\":[{\"gross\":500000,\"worker\":7}],\"version\":1}",
        "HTTP/1.1 200 OK\r\nContent-Type: application/json\r\nContent-Length: 29\r\n\r\n\
         {\"charge\":100000,\"version\":2}",
    ),
    (
        "POST /employers/1001/reports/2024-03 HTTP/1.1\r\nHost: office\r\nOffice-Key: desk\r\n\
         Request-Number: 6\r\nContent-Length: 12\r\n\r\n\
         {\"lines\":[]}",
        "HTTP/1.1 200 OK\r\nContent-Type: application/json\r\nContent-Length: 24\r\n\r\n\
         {\"charge\":0,\"version\":1}",
    ),
    (
        "POST /employers/1001/claims HTTP/1.1\r\nHost: office\r\nOffice-Key: desk\r\n\
         Request-Number: 7\r\nContent-Length: 26\r\n\r\n\
         {\"cents\":10000,\"worker\":7}",
        "HTTP/1.1 200 OK\r\nContent-Type: application/json\r\nContent-Length: 11\r\n\r\n\
         {\"claim\":1}",
    ),
    (
        "POST /claims/1/release HTTP/1.1\r\nHost: office\r\nOffice-Key: desk\r\n\
         Request-Number: 8\r\nContent-Length: 0\r\n\r\n",
        "HTTP/1.1 200 OK\r\nContent-Type: application/json\r\nContent-Length: 53\r\n\r\n\
         {\"paid\":8000,\"to_contributions\":0,\"to_interest\":2000}",
    ),
    (
        "POST /payouts HTTP/1.1\r\nHost: office\r\nOffice-Key: desk\r\n\
         Request-Number: 9\r\nContent-Length: 0\r\n\r\n",
        "HTTP/1.1 200 OK\r\nContent-Type: application/json\r\nContent-Length: 33\r\n\r\n\
         {\"items\":1,\"list\":1,\"total\":8000}",
    ),
];

/// How many requests there are.
pub(crate) const COUNT: usize = REQUESTS.len();

const QUESTIONS: &str =
    "GET /employers/1001/statement HTTP/1.1\r\nHost: office\r\nOffice-Key: desk\r\n\r\n\
    GET /employers/1001/owed HTTP/1.1\r\nHost: office\r\nOffice-Key: desk\r\n\r\n\
    GET /workers/7 HTTP/1.1\r\nHost: office\r\nOffice-Key: desk\r\n\r\n\
    GET /suspense HTTP/1.1\r\nHost: office\r\nOffice-Key: desk\r\n\r\n\
    GET /payouts/1 HTTP/1.1\r\nHost: office\r\nOffice-Key: desk\r\n\r\n";

/// What came of a request.
#[derive(Clone, Copy)]
pub(crate) enum Came {
    /// Its reply.
    Reply,
    /// That the store failed.
    Fault,
    /// That the office had failed before.
    Failed,
    Other,
}

/// Sends the request of a place, from 0, under its own number.
pub(crate) fn send<S: Alter>(desk: &Desk, office: &mut Office<S>, place: usize) -> Came {
    let Some((request, answer)) = REQUESTS.get(place) else {
        return Came::Other;
    };
    match answers(desk, office, request) {
        Some(taken) => came_of(taken.as_slice(), answer),
        None => Came::Other,
    }
}

/// What the office tells of its firm, its worker, the lines in suspense and the list.
pub(crate) fn told<S: Alter>(desk: &Desk, office: &mut Office<S>) -> Option<Vec<u8>> {
    answers(desk, office, QUESTIONS)
}

fn came_of(taken: &[u8], answer: &str) -> Came {
    if taken == answer.as_bytes() {
        Came::Reply
    } else if taken.ends_with(b"\"name\":\"Store\",\"rule\":41}") {
        Came::Fault
    } else if taken.ends_with(b"\"name\":\"Failed\",\"rule\":42}") {
        Came::Failed
    } else {
        Came::Other
    }
}
