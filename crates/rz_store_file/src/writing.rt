//! The text of a description.

ghost use Rattle.std.specs.Prelude.{◌≡◌, ◌≤◌, Ok, IfOk, OnOk, All, map, string_bytes};
ghost use Rattle.serde_json.specs.Data.{array, string};
ghost use Rattle.serde_json.specs.View.{view, items_of};
ghost use Rattle.rz_events.specs.Volume.{IsVolume};
ghost use Rattle.rz_store_file.specs.Described.{IsDescription, store_of_text};
ghost use Rattle.rz_store_file.specs.Written.{AreSmall, IsSmall, node_data, cluster_data, volume_data, store_data};

use crate::StoreFile;
use rz_config::{ClusterSpec, Volume};
use rz_events::NodeSpec;
use serde_json::{Value, json};
use std::alloc::{AllocError, Global};

fn node_value(alloc: Global, node: &NodeSpec) -> Result<Value, AllocError>
    ensures value { IfOk result (λ v. view v ≡ node_data node.now) }
    ensures small { OnOk result (node.now.sid ≤ 65535) }
{
    json!(in alloc; {"sid": node.sid, "cells": node.cells})
}

fn nodes_value(alloc: Global, nodes: &[NodeSpec]) -> Result<Value, AllocError>
    ensures value { IfOk result (λ v. view v ≡ array (items_of (map node_data nodes.now))) }
    ensures small { OnOk result (AreSmall nodes.now) }
{
    let mut items = Vec::with_capacity(alloc, nodes.len())?;
    for node in nodes {
        items.push(node_value(alloc, node)?)?;
    }
    Ok(Value::Array(items))
}

fn cluster_value(alloc: Global, cluster: &ClusterSpec) -> Result<Value, AllocError>
    ensures value { IfOk result (λ v. view v ≡ cluster_data cluster.now) }
    ensures small { OnOk result (IsSmall cluster.now) }
{
    let nodes = nodes_value(alloc, cluster.nodes.as_slice())?;
    json!(in alloc; {"cid": cluster.cid, "nodes": nodes})
}

fn clusters_value(alloc: Global, clusters: &[ClusterSpec]) -> Result<Value, AllocError>
    ensures value { IfOk result (λ v. view v ≡ array (items_of (map cluster_data clusters.now))) }
    ensures small { OnOk result (All IsSmall clusters.now) }
{
    let mut items = Vec::with_capacity(alloc, clusters.len())?;
    for cluster in clusters {
        items.push(cluster_value(alloc, cluster)?)?;
    }
    Ok(Value::Array(items))
}

fn volume_value(alloc: Global, volume: &Volume) -> Result<Value, AllocError>
    ensures value { IfOk result (λ v. view v ≡ volume_data volume.now) }
    ensures small { OnOk result (All IsSmall volume.now.clusters) }
    ensures rules { OnOk result (IsVolume volume.now) }
{
    let clusters = clusters_value(alloc, volume.clusters.as_slice())?;
    let layout = volume.layout;
    json!(in alloc; {"layout": layout.number(), "bsize": layout.block_bytes(), "clusters": clusters})
}

fn paths_value(alloc: Global, paths: &[String]) -> Result<Value, AllocError>
    ensures { IfOk result (λ v. view v ≡ array (items_of (map string (map string_bytes paths.now)))) }
{
    let mut items = Vec::with_capacity(alloc, paths.len())?;
    for path in paths {
        items.push(Value::try_from_str(alloc, path.as_str())?)?;
    }
    Ok(Value::Array(items))
}

impl StoreFile {
    fn value(&self, alloc: Global) -> Result<Value, AllocError>
        ensures value { IfOk result (λ v. view v ≡ store_data self.now) }
        ensures small { OnOk result (All IsSmall self.now.volume.clusters) }
        ensures rules { OnOk result (IsVolume self.now.volume) }
        ensures proper { OnOk result (IsDescription self.now) }
    {
        let volume = volume_value(alloc, &self.volume)?;
        let disks = paths_value(alloc, &self.disks)?;
        let journal = self.journal.as_str();
        json!(in alloc; {"volume": volume, "disks": disks, "journal": journal})
    }

    /// A text of this description. It reads back as the same one.
    pub fn to_text(&self, alloc: Global) -> Result<String, AllocError>
        ensures { IfOk result (λ text. store_of_text (string_bytes text) ≡ Ok self.now) }
    {
        let value = self.value(alloc)?;
        value.to_string_pretty(alloc)
    }
}
