//! Laws of charts. The bodies do nothing: the contracts are the laws.
ghost use Rattle.std.specs.Prelude.{◌≡◌, ◌++◌, List};
ghost use Rattle.journal.specs.declared.entries.Entry.{Entry};
ghost use Rattle.chart.specs.declared.places.Place.{Place};
ghost use Rattle.chart.specs.Chart.{chart_of, end_text, first_place, place_after_all, rows_text};
ghost use Rattle.chart.specs.Chart.{start_text};
ghost use Rattle.chart.specs.Naming.{named_by, packet_lines};
ghost use Rattle.chart.specs.Svg.{document_text};

/// A chart names the packets of its journal, each once and in order, by the lines of the journal.
#[tactic(auto, using(crate::proofs::Names::packets_are_named))]
pub fn each_packet_is_named_once()
    ensures { (entries : List Entry)
        → named_by (chart_of entries).elements ≡ packet_lines entries }
{}

/// A chart is what `chart_start`, `chart_rows` and `chart_end` write, one after the other, and the
/// rows may be written in parts.
#[tactic(auto, using(crate::proofs::Parts::chart_in_parts, crate::proofs::Parts::rows_in_parts, crate::proofs::Parts::place_after_parts))]
pub fn a_chart_is_its_parts()
    ensures whole { (entries : List Entry) → document_text (chart_of entries)
        ≡ start_text (place_after_all first_place entries) ++ rows_text first_place entries
        ++ end_text (place_after_all first_place entries) }
    ensures rows { (place : Place) (front back : List Entry) → rows_text place (front ++ back)
        ≡ rows_text place front ++ rows_text (place_after_all place front) back }
    ensures place { (place : Place) (front back : List Entry)
        → place_after_all place (front ++ back)
        ≡ place_after_all (place_after_all place front) back }
{}
