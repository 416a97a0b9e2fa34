//! What follows from the definitions. These functions do nothing: their clauses are laws.
ghost use Rattle.std.specs.Prelude.{◌≡◌, ◌⊎◌, ℕ, [], List, length};
ghost use Rattle.std.specs.List.{sum_by};
ghost use Rattle.fan_base.specs.Outside.{Shown, FaultsRose};
ghost use Rattle.query_model.specs.declared.line.Input.{Input};
ghost use Rattle.query_model.specs.declared.line.Line.{Line};
ghost use Rattle.query_model.specs.Documents.{queries_of};
ghost use Rattle.query_model.specs.Order.{replies_of};
ghost use Rattle.query_model.specs.Output.{output};
ghost use Rattle.reply_order.specs.Orders.{held_of, next_of};
ghost use Rattle.reply_printer.specs.declared.printer.Printer.{Printer};
ghost use Rattle.reply_printer.specs.declared.printer.Progress.TheVariants as progress;
ghost use Rattle.reply_printer.specs.Passing.{Gains, GainsFront};
ghost use Rattle.reply_printer.specs.Printing.{GoesOn, IsNew, Placed, Prints, placed_of, text_of};

/// A new printer has written and was given nothing.
pub fn a_new_printer_prints()
    ensures { (lines : List Line) (p : Printer) (start : Shown) → IsNew p → Prints lines [] p start start }
{}

/// There are as many replies as queries.
pub fn a_reply_for_each_query()
    ensures { (lines : List Line) → length (replies_of lines) ≡ length (queries_of lines) }
{}

/// The text of all replies is the output of the input.
#[tactic(auto, unfolding(query_model::specs::Output::output))]
pub fn all_text_is_the_output()
    ensures { (input : Input) → text_of input.lines ≡ output input }
{}

/// What a printer has written: a front of all lines, with the sink's faults risen where a write failed; and all lines, where it
/// writes still and the replies of all places have gone out.
pub fn what_is_written()
    ensures all { (lines : List Line) (given : List Placed) (p : Printer) (start now : Shown) → Prints lines given p start now →
        p.progress ≡ progress.Writing → next_of p.orderer ≡ length (replies_of lines) → Gains start now (text_of lines) }
    ensures front { (lines : List Line) (given : List Placed) (p : Printer) (start now : Shown) → Prints lines given p start now →
        GainsFront start now (text_of lines) }
    ensures fault { (lines : List Line) (given : List Placed) (p : Printer) (start now : Shown) → Prints lines given p start now →
        p.progress ≡ progress.WriteFault → FaultsRose start.faults now.faults }
{}

/// Where the replies of all places have gone out, none is held, and the printer was given each once.
pub fn each_reply_was_given_once()
    ensures none { (lines : List Line) (given : List Placed) (p : Printer) (start now : Shown) → Prints lines given p start now →
        next_of p.orderer ≡ length (replies_of lines) → held_of p.orderer ≡ [] }
    ensures once { (lines : List Line) (given : List Placed) (p : Printer) (start now : Shown) → Prints lines given p start now →
        GoesOn p.progress → next_of p.orderer ≡ length (replies_of lines) →
        (weight : Placed → ℕ) → sum_by weight given ≡ sum_by weight (placed_of lines) }
{}
