//! Each law is a function that can be called.

use adl_ast::{
    assemblies_stand_alone, beginnings_are_fronts, codes_tell_kinds, compositions_stand_alone,
    configurations_stand_alone, files_are_one, fronts_begin, interfaces_agree, params_agree,
    typed_names_agree, values_stand_alone,
};
use adl_hierarchy::{
    acyclic_is_unheld, climbing_is_looking_down, connections_are_the_connections,
    domains_are_the_domains, ends_are_what_joins, held_is_held, leaf_numbers_are_places,
    leaves_are_the_leaves, sound_hierarchies_are_finite, spelled_names_are_dotted, walks_are_short,
};
use adl_import::{answers_are_one, loaded_sources_are_whole, sources_are_one};
use adl_lexer::{
    bytes_at_fault_begin_no_token, first_fault_is_one, keywords_are_their_words, one_thing_begins,
    tokens_are_one, tokens_have_no_fault, tokens_have_their_texts,
};
use adl_meaning::{
    connectors_are_their_words, first_is_first, noted_is_least, sound_names_have_no_fault,
};
use adl_settings::{
    badges_count_from_one, outer_settings_come_first, references_are_values,
    settings_are_those_of_joins,
};
use authorities::sets_are_their_members;
use camkes_tool::{
    builds_are_separated, checked_texts_are_separated, memory_of_builds_is_static,
    plain_memory_is_static,
};
use cap_machine::{answers_are_told, states_keep_fitting, steps_follow_the_table};
use cap_model::{
    edges_are_ordered, examples_are_written, has_is_membership, tables_are_their_edges,
};
use cert_check::valid_certificates_are_sound;
use conn_rules::{rights_confer_just_the_authorities, sets_are_their_lists};
use flat_laws::{ends_are_typed, flat_systems_are_within, short_files_have_few_members};
use flow_model::{
    acts_are_possible, acts_keep_to_the_policy, acts_lead_to_one_world, each_way_passes,
    less_is_valid, others_change_nothing, own_acts_decide, policies_stay_kept, turns_decide,
};
use front_laws::{
    devices_serve_one_object, duplicates_are_names_again, elf_faults_are_the_first,
    files_are_those_that_imports_reach, flat_systems_are_by_the_hierarchy, misfits_are_at_fault,
    overlaps_share_addresses, placed_objects_are_apart, refused_imports_are_the_first,
    region_faults_are_the_first, settings_twice_are_set_again, step_faults_are_the_first,
    told_faults_stand, types_are_by_the_hierarchy, unknown_names_stand_for_nothing,
    unknown_words_lead_nowhere,
};
use label_flow::chains_are_flows;
use page_tables::{
    counts_are_of_addresses, root_is_one, runs_are_tables, shapes_are_levels, slots_rise,
    tables_are_kept, tables_hold_what_is_mapped,
};

#[test]
fn laws_of_the_grammar(_rt: HostRuntime) {
    codes_tell_kinds();
    files_are_one();
    values_stand_alone();
    compositions_stand_alone();
    configurations_stand_alone();
    assemblies_stand_alone();
    fronts_begin();
    beginnings_are_fronts();
    typed_names_agree();
    params_agree();
    interfaces_agree();
}

#[test]
fn laws_of_tokens(_rt: HostRuntime) {
    tokens_are_one();
    first_fault_is_one();
    tokens_have_no_fault();
    tokens_have_their_texts();
    one_thing_begins();
    bytes_at_fault_begin_no_token();
    keywords_are_their_words();
}

#[test]
fn laws_of_sources(_rt: HostRuntime) {
    sources_are_one();
    answers_are_one();
    loaded_sources_are_whole();
    first_is_first();
    noted_is_least();
    sound_names_have_no_fault();
    connectors_are_their_words();
    walks_are_short();
    held_is_held();
    acyclic_is_unheld();
}

#[test]
fn laws_of_hierarchies(_rt: HostRuntime) {
    sound_hierarchies_are_finite();
    spelled_names_are_dotted();
    leaves_are_the_leaves();
    connections_are_the_connections();
    ends_are_what_joins();
    climbing_is_looking_down();
    domains_are_the_domains();
    leaf_numbers_are_places();
    flat_systems_are_within();
    ends_are_typed();
    short_files_have_few_members();
}

#[test]
fn laws_of_settings(_rt: HostRuntime) {
    badges_count_from_one();
    outer_settings_come_first();
    references_are_values();
    settings_are_those_of_joins();
}

#[test]
fn laws_of_faults_in_words(_rt: HostRuntime) {
    duplicates_are_names_again();
    unknown_names_stand_for_nothing();
    unknown_words_lead_nowhere();
    misfits_are_at_fault();
    settings_twice_are_set_again();
    types_are_by_the_hierarchy();
    flat_systems_are_by_the_hierarchy();
    files_are_those_that_imports_reach();
    refused_imports_are_the_first();
    told_faults_stand();
}

#[test]
fn laws_of_texts_in_words(_rt: HostRuntime) {
    step_faults_are_the_first();
    region_faults_are_the_first();
    elf_faults_are_the_first();
    overlaps_share_addresses();
    devices_serve_one_object();
    placed_objects_are_apart();
}

#[test]
fn laws_of_authorities(_rt: HostRuntime) {
    edges_are_ordered();
    has_is_membership();
    sets_are_their_members();
    tables_are_their_edges();
    rights_confer_just_the_authorities();
    sets_are_their_lists();
}

#[test]
fn laws_of_layouts(_rt: HostRuntime) {
    shapes_are_levels();
    runs_are_tables();
    tables_hold_what_is_mapped();
    slots_rise();
    root_is_one();
    counts_are_of_addresses();
    tables_are_kept();
}

#[test]
fn laws_of_the_machine(_rt: HostRuntime) {
    examples_are_written();
    steps_follow_the_table();
    states_keep_fitting();
    answers_are_told();
    valid_certificates_are_sound();
}

#[test]
fn laws_of_flows(_rt: HostRuntime) {
    acts_lead_to_one_world();
    acts_are_possible();
    each_way_passes();
    others_change_nothing();
    own_acts_decide();
    turns_decide();
    acts_keep_to_the_policy();
    policies_stay_kept();
    less_is_valid();
    chains_are_flows();
    plain_memory_is_static();
    builds_are_separated();
    checked_texts_are_separated();
    memory_of_builds_is_static();
}
