// The function of crate `query_numbers`, exported for other languages (part/hirgwamo.h). It has an archive of its own beside that of crate `hirgwamo`: there
// each function below it has one caller, so that the compiler puts it in there and a schedule is copied less often.
#![tactic(auto)]

ghost use Rattle.query_numbers.specs.Batch.{BatchEnds};

// Answers all queries, in their order. Returns 0, or what is wrong with the slices; then nothing is written.
#[unsafe(no_mangle)]
pub extern "C" fn hirgwamo_answers(
    book: &[u8],
    pack: &[u8],
    queries: &[i64],
    answers: &mut [i64],
) -> u32
    ensures { BatchEnds book.now pack.now queries.now result answers.old answers.new }
{
    query_numbers::hirgwamo_answers(book, pack, queries, answers)
}
