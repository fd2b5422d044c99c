//! Each law is there under its name, and may be called by whoever needs what it says.

use bv_term::laws::{one_for_each, values_begin, values_fit, values_stay, widths_stay};
use c_graph::laws::inductive_means_safe;
use c_meaning::drawn_are_there;
use c_tokens::{has_no_other, has_one, has_spans, is_lexed};
use c_typed::{drawn_inputs, more_turns};
use call_order::{
    cycles_broken, cycles_found, cycles_none, layers_lead, orders_found, whole_acyclic,
};
use control_laws::{same_control, same_jumps};
use effect_rules::effects_summed;
use elaboration_body_laws::{programs_typed, sources_typed, values_typed};
use elaboration_fit_laws::{expressions_fit, known_hold, sources_fit};
use elaboration_laws::{places_kept, runs_kept, sources_read, typed_kept};
use elaboration_main_laws::main_found;
use elaboration_offset_laws::{
    good_sources, objects_typed, parameters_typed, sources_break, sources_hold, sources_run,
};
use elaboration_source_laws::{calls_found, good_programs, objects_kept, tokens_rise};
use error_call_laws::{calls_kept, reaches_kept};
use fault_examples::broken_lines;
use first_token_laws::{first_refusals, limits, one_first, one_tree, viable_tokens};
use good_run_laws::{bodies_left, labels_found};
use high_tree_laws::{faults, too_high};
use jump_rules::bodies_walked;
use low_beginning_laws::{first_stops, low_beginnings, one_stop};
use name_bindings::part_by_part;
use parser_symbols::words_are;
use resolution_log::laws::{
    cuts_stay_lean, lean_refutes, new_by_closed_set, new_logs_are_valid, new_logs_grow,
    none_is_new_over_empty, propagation_stays, results_are_implied, sets_are_enough,
};
use run_replay::orders_agree;
use slot_laws::{code_goes_on, code_runs_as_tree, code_runs_each_way, code_shaped, ranks_fall};
use stored_text::{over_is_named, refused_at_the_first_byte, run_text_is_read, written_is_read};
use typed_range_laws::{runs_agreeing, runs_each_way, runs_guarded};
use typing_rules::{constants_summed, expressions_summed, words_summed};

#[test]
fn what_declarations_bind() {
    part_by_part();
}

#[test]
fn small_sources_and_their_faults() {
    broken_lines();
}

#[test]
fn runs_that_break_no_rule() {
    bodies_left();
    labels_found();
    drawn_are_there();
}

#[test]
fn the_one_main() {
    main_found();
}

#[test]
fn jumps_and_control_of_typed_trees() {
    same_jumps();
    same_control();
}

#[test]
fn what_fits() {
    expressions_fit();
    sources_fit();
    known_hold();
}

#[test]
fn what_the_order_of_tokens_leaves() {
    sources_hold();
    sources_run();
    sources_break();
    good_sources();
    objects_typed();
    parameters_typed();
}

#[test]
fn sources_from_their_bytes() {
    tokens_rise();
    good_programs();
    calls_found();
    objects_kept();
}

#[test]
fn bodies_keep_their_facts() {
    values_typed();
    sources_typed();
    programs_typed();
}

#[test]
fn calls_of_reach_error() {
    reaches_kept();
    calls_kept();
    places_kept();
}

#[test]
fn values_in_their_ranges() {
    runs_agreeing();
    runs_each_way();
    runs_guarded();
}

#[test]
fn flat_code_runs_as_the_tree() {
    code_goes_on();
    ranks_fall();
    code_shaped();
    code_runs_each_way();
    code_runs_as_tree();
}

#[test]
fn instructions_and_cells() {
    layout_laws::cells_differ();
    layout_laws::cells_serve();
    code_move_laws::code_is_laid();
    code_move_laws::graph_way_suits();
    code_move_laws::converting_agrees();
    code_move_laws::stores_trim();
    code_move_laws::begins_trim();
    code_move_laws::binds_trim();
    code_move_laws::steps_agree();
    code_move_laws::zero_skips_agree();
    code_move_laws::equal_skips_agree();
    code_move_laws::deeds_are_done();
    code_move_laws::checks_pass();
    code_move_laws::checks_fail();
    code_move_laws::steps_run();
    code_flow_laws::flat_errors_follow();
    code_flow_laws::typed_errors_follow();
    code_start_laws::program_opens();
    code_start_laws::program_errors_follow();
    function_graph_laws::following_makes_flows();
    source_graph_laws::inlined_graphs_stand();
    source_graph_laws::joined_graphs_stand();
}

#[test]
fn runs_over_graphs_that_come_back() {
    code_back_laws::moves_are_determined();
    code_back_laws::returns_are_unread();
    code_back_laws::stores_open();
    code_back_laws::flat_errors_come_back();
    code_back_laws::typed_errors_come_back();
    code_back_laws::program_errors_come_back();
    code_visit_laws::flat_visits_follow();
    inline_back_laws::inlined_runs_come_back();
    inline_back_laws::met_errors_come_back();
    inline_back_laws::inlined_errors_come_back();
    edge_count_laws::built_is_sparse();
    edge_count_laws::graphs_branch();
}

#[test]
fn code_that_graphs_are_made_of() {
    code_fit_laws::code_is_fit();
    code_fit_laws::calls_are_entries();
    code_fit_laws::code_keeps();
    code_fit_laws::calls_begin();
    code_fit_laws::ranges_are_there();
    code_fit_laws::ranges_are_of();
    code_fit_laws::typed_code_passes();
}

#[test]
fn graphs_of_blocks() {
    block_laws::blocks_keep_errors();
    block_laws::blocked_map_means_safe();
    block_laws::reads_tell();
    block_laws::complements_exclude();
}

#[test]
fn orders_of_functions() {
    orders_agree();
}

#[test]
fn files_that_are_stored() {
    run_text_is_read();
    refused_at_the_first_byte();
    over_is_named();
    written_is_read();
}

#[test]
fn what_nothing_refuses() {
    sources_read();
    typed_kept();
    runs_kept();
}

#[test]
fn the_tokens_of_a_source() {
    has_one();
    has_no_other();
    has_spans();
    is_lexed();
}

#[test]
fn trees_that_are_too_high() {
    too_high();
    faults();
}

#[test]
fn the_first_token_that_is_refused() {
    words_are();
    viable_tokens();
    first_refusals();
    one_first();
    limits();
    one_tree();
}

#[test]
fn the_first_token_without_a_low_tree() {
    low_beginnings();
    first_stops();
    one_stop();
}

#[test]
fn runs_of_typed_trees() {
    more_turns();
    drawn_inputs();
}

#[test]
fn rules_of_expressions_as_sums() {
    expressions_summed();
    words_summed();
    constants_summed();
}

#[test]
fn walks_over_bodies() {
    bodies_walked();
    effects_summed();
}

#[test]
fn calls_on_cycles() {
    layers_lead();
    cycles_found();
    cycles_broken();
    cycles_none();
    orders_found();
    whole_acyclic();
}

#[test]
fn tables_of_terms_and_graphs() {
    values_stay();
    values_begin();
    widths_stay();
    values_fit();
    one_for_each();
    inductive_means_safe();
}

#[test]
fn logs_of_steps() {
    results_are_implied();
    propagation_stays();
    new_by_closed_set();
    none_is_new_over_empty();
    sets_are_enough();
    new_logs_grow();
    new_logs_are_valid();
    cuts_stay_lean();
    lean_refutes();
}

#[test]
fn certificates_as_text() {
    certificate_laws::cert_text_is_read();
    certificate_laws::written_is_read();
    certificate_laws::read_is_written();
    certificate_laws::refused_for_good();
    certificate_laws::over_is_named();
}

#[test]
fn unwindings() {
    unwinding_laws::legal_is_well_labelled();
    unwinding_laws::growing_tables_keep_legality();
    unwinding_laws::legal_is_a_tree();
    unwinding_laws::legal_paths_are_of_edges();
    unwinding_laws::chains_refine();
    unwinding_laws::one_more_is_steered();
    unwinding_laws::growing_tables_keep_steering();
    journal_length_laws::journals_are_short();
    enough_unit_laws::enough_units_are_not_spent();
}

#[test]
fn diagrams_that_grow() {
    formula_diagrams::laws::truths_stay();
}

#[test]
fn maps_and_obligations() {
    map_laws::extracted_is_inductive();
    obligation_laws::entry_exact();
    obligation_laws::error_exact();
    obligation_laws::edge_exact();
    obligation_laws::inductive_exact();
    cert_check_laws::accepted_is_inductive();
    cert_check_laws::accepted_is_safe();
    cert_check_laws::accepted_is_not_refused();
    cert_check_laws::check_is_unique();
}

#[test]
fn calls_as_copies() {
    inline_laws::inlined_runs_follow();
    inline_laws::inlined_map_means_safe();
}

#[test]
fn visits_of_loops() {
    slot_turn_laws::code_turns_as_tree();
    loop_visit_laws::loops_turn();
    loop_visit_laws::loop_visits_follow();
    inline_visit_laws::inlined_spots_follow();
    loop_listing_laws::loops_are_listed();
    source_visit_laws::inlined_visits_follow();
    source_visit_laws::visits_hold();
    join_laws::blocks_keep_loops();
    join_laws::blocks_keep_live();
    join_laws::plans_mark_needed();
    join_laws::chains_keep_loops();
}

#[test]
fn chains_of_edges() {
    edge_chain_laws::chains_keep_errors();
    edge_chain_laws::chains_keep_visits();
    join_laws::blocks_keep();
    join_laws::chains_keep();
}

#[test]
fn runs_that_come_back() {
    drawn_value_laws::drawn_are_words();
    drawn_value_laws::errors_meet();
    edge_chain_back_laws::chains_come_back();
    edge_chain_back_laws::chain_errors_come_back();
    edge_chain_back_laws::chain_paths_come_back();
    edge_chain_back_laws::own_paths_come_back();
    block_back_laws::blocks_come_back();
    block_back_laws::block_errors_come_back();
    block_back_laws::block_paths_come_back();
    block_edges::complements_cover();
}

#[test]
fn fresh_literals() {
    blast_laws::fresh_take_any();
    blast_laws::fresh_stay();
    blast_laws::any_store_and_draws();
}

#[test]
fn pairs() {
    pair_query::laws::pair_exact();
    pair_query::laws::pair_read();
}

#[test]
fn layouts_of_code() {
    code_layout::laws::layouts_lie();
}

#[test]
fn operations_of_c() {
    word_laws::laws::conversions_agree();
    word_laws::laws::zeros_agree();
    word_laws::laws::operations_agree();
    word_laws::laws::failures_agree();
    word_laws::laws::negations_agree();
}

#[test]
fn operands_of_terms() {
    term_laws::laws::terms_are_made();
    term_laws::laws::renamed_fits();
    term_laws::laws::renamed_means();
}

#[test]
fn formulas_of_cuts() {
    interpolants::laws::steps_lead();
    interpolants::laws::cuts_lead();
    interpolants::laws::first_is_true();
    interpolants::laws::last_is_false();
    interpolants::laws::formulas_lead();
    interpolants::laws::agreed_are_given();
    interpolants::laws::formulas_read_their_cut();
    interpolants::laws::first_is_meant();
    interpolants::laws::last_is_meant();
}

#[test]
fn clauses_of_blasting() {
    blast_laws::calls_exact();
    blast_laws::new_starts();
    blast_laws::renew_starts();
    blast_laws::stores_spelled();
    blast_laws::truths_read();
    blast_laws::calls_scope();
    blast_laws::reads_scope();
    blast_laws::terms_small();
    blast_laws::stores_small();
}

#[test]
fn clauses_of_paths() {
    path_laws::questions_are_steps();
    path_laws::steps_lie_between();
    path_laws::shared_in_cuts();
    path_laws::edges_meet_steps();
    path_laws::steps_take_edges();
    path_laws::runs_meet_questions();
    path_laws::questions_make_runs();
    path_laws::draws_are_read();
    path_laws::numbers_are_bits();
    path_weight_laws::paths_are_light();
    path_weight_laws::refused_paths_are_heavy();
    path_weight_laws::terms_are_below();
}

#[test]
fn formulas_along_paths() {
    chain_laws::formulas_are_linked();
    chain_laws::formulas_make_links();
}

#[test]
fn reads_of_cells() {
    needed_cell_laws::needed_is_read();
    needed_cell_laws::cuts_are_read();
    needed_cell_laws::shared_is_read();
}

#[test]
fn stores_that_agree() {
    needed_cells::named_cells_decide();
    needed_cells::needed_by_decides();
    needed_cells::needed_cells_decide();
    needed_cells::needed_along_decides();
    needed_cells::edges_keep_whole();
}

#[test]
fn answers_to_requests() {
    cert_verdicts::judged_is_unique();
    cert_verdicts::certificate_is_accepted();
    source_verdicts::written_is_accepted();
    request_answers::accepted_is_certified();
    request_answers::safe_is_proved();
    request_answers::zero_is_certified();
    request_answers::unsafe_reaches();
    request_answers::accepted_is_exact();
    request_answers::safe_is_accepted();
    request_answers::checks_agree();
}

#[test]
fn graphs_of_sources() {
    source_graphs::program_graphs_are_of_trees();
    source_graphs::limits_are_exact();
}

// Of what witnesses state.
#[test]
fn laws_of_witnesses() {
    witness_truth_laws::bits_are_read();
    witness_truth_laws::written_has_value();
    witness_truth_laws::written_is_true();
    witness_truth_laws::text_is_written();
    witness_text_laws::texts_are_read();
    witness_text_laws::trees_are_shaped();
    witness_visit_laws::inlined_cells_stand();
    witness_visit_laws::invariants_are_true();
    witness_visit_laws::marked_invariants_are_true();
}
